//! Tests of the inbox alone.

mod example;
