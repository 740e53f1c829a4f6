//! Plans back as text. Other texts, and that a refused allocation answers so, the tests in C show.

mod example;
