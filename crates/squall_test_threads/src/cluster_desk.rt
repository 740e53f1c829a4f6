//! Tests of the desk alone.

mod example;
