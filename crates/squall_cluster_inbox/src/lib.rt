//! The inbox of a cluster: many senders post boards to one taker, through a queue with limited room.
//!
//! # Example
//!
//! A sender posts a letter into an inbox with room for one.
//!
//! ```rust
//! fn takes_what_is_posted<K: Constants, R: Abort + Wait>(
//!     rt: &R,
//!     alloc: Global,
//!     letter: Letter,
//! ) -> Result<(), Fail>
//!     requires { K.allowed ≡ None }
//! {
//!     let mut taker = Taker::<K>::open(alloc, 1)?;
//!     let mut sender = taker.hire()?;
//!     assert!(rt; sender.post(rt, letter).is_ok());
//!     assert!(rt; taker.take(rt).is_some());
//!     assert!(rt; taker.take(rt).is_none());
//!     Ok(())
//! }
//! ```
//!
//! Its tests are in `crates/squall_test_threads`.
#![tactic(auto)]

mod constants;
mod knows;
mod letter;
mod queue;
mod sender;
mod taker;

pub use constants::Constants;
pub use letter::{Letter, News, Parcel};
pub use sender::{Full, Sender, Spent};
pub use taker::Taker;
