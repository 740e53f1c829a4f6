//! How far a course has come. What is written of others the cases of the built program show, and that a refused allocation
//! answers so the tests in C.

mod example;
