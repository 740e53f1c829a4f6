//! Rooms of C into which what allocates writes. What is written there, and that nothing is if an allocation fails, the
//! tests in C show.

mod example;
