//! Tests of what goes between the nodes of a world.

mod example;
