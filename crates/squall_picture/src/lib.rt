//! A course as a picture in SVG: both plans, the moves between them, and how far each has come.
//!
//! # Example
//!
//! The picture of a course shows each move, with a title that says how far it has come.
//!
//! ```rust
//! fn picture_is_svg(
//!     rt: &impl Abort,
//!     alloc: Global,
//!     course: &Course,
//!     board: &Board,
//! ) -> Result<(), Fail> {
//!     let text = picture(alloc, course, board)?;
//!     assert!(rt; text.as_str().starts_with("<svg "));
//!     assert!(rt; text.as_str().ends_with("</svg>\n"));
//!     assert!(rt; text.as_str().contains("[2:0,3:0) from 1 to 3, sub-plan 0"));
//!     Ok(())
//! }
//! ```
//!
//! Its tests are in `crates/squall_test_status/src/picture.rt`.
#![tactic(auto)]

mod axis;
mod bands;
mod bars;
mod draw;
mod frame;
pub mod laws;
mod legend;
mod scale;

pub use draw::{add_picture, picture};
