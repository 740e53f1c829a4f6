//! Tests of what boards send each other. How boards are cut, shown and repaired, and that a refused allocation changes
//! nothing, the tests in C and the cases of the built program show.

mod example;
mod pieces;
