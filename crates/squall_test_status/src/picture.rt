//! The picture of a course. Others are among the cases of the built program, and that a refused allocation answers so the
//! tests in C show.

mod example;
