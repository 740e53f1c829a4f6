//! The desk of a cluster: a router in two copies, which seats read with no lock while a publisher
//! brings it up to date.
//!
//! A call that "fails (memory)" does so only if an allocation fails, or if a count of owners is full.
//!
//! # Example
//!
//! The first course moves the key 2:0 from partition 1 to 3, and `letter` brings the report that it
//! is loaded.
//!
//! ```rust
//! fn sees_what_is_published<K: Constants, R: Abort + Wait>(
//!     rt: &R,
//!     publisher: &mut Publisher<K, &R>,
//!     seat: &mut Seat<K>,
//!     letter: Letter,
//! ) -> Result<(), Fail>
//!     requires { (publisher.old.hand ≡ []) × IsLetter K.allowed letter }
//! {
//!     let key = Key::new(2, 0).ok_or("a key")?;
//!     assert!(rt; seat.route(key) == PartId::new(1));
//!     publisher.lay(letter);
//!     publisher.publish()?;
//!     assert!(rt; seat.route(key) == PartId::new(3));
//!     Ok(())
//! }
//! ```
//!
//! Its tests are in `crates/squall_test_threads`.
#![tactic(auto)]

pub mod laws;
mod places;
mod publisher;
mod rule;
mod seat;
mod shown;
mod start;
mod track;

pub use places::{Places, SeatFault};
pub use publisher::Publisher;
pub use seat::{Notice, Seat};
pub use start::Start;
