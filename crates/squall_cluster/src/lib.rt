//! The running cluster: senders post boards from their threads, one owner publishes them, and seats
//! route keys in theirs by what is published.
//!
//! A call that "fails (memory)" does so only if an allocation fails, or if a count of owners is full.
//!
//! # Example
//!
//! The first course moves the key 2:0 from partition 1 to 3, and `letter` brings the report that it
//! is loaded.
//!
//! ```rust
//! fn routes_by_a_letter<K: Constants, R: Abort + Wait>(
//!     rt: &R,
//!     sender: &mut Sender<K>,
//!     owner: &mut Owner<K, &R>,
//!     seat: &mut Seat<K>,
//!     letter: Letter,
//! ) -> Result<(), Fail>
//!     requires { K.allowed ≡ None }
//! {
//!     let key = Key::new(2, 0).ok_or("a key")?;
//!     assert!(rt; sender.post(rt, letter).is_ok());
//!     seat.learn(&owner.turn()?.notice);
//!     assert!(rt; seat.route(key) == PartId::new(3));
//!     Ok(())
//! }
//! ```
//!
//! Its tests are in `crates/squall_test_threads/src/cluster.rt`.
#![tactic(auto)]

mod closing;
mod cluster;
mod gate;
mod halt;
pub mod laws;
mod owner;
mod racing;
mod reading;
mod sending;
mod shared;
mod tasks;

pub use closing::{CloseFault, close};
pub use cluster::{Cluster, ClusterFault, Setup, Sizes};
pub use gate::{Actor, Gate};
pub use halt::RaceFault;
pub use owner::{Owner, Turn};
pub use racing::{Raced, race};
pub use squall_cluster_desk::{Notice, Seat, SeatFault, Start};
pub use squall_cluster_inbox::{Constants, Full, Letter, Parcel, Sender, Spent};
pub use tasks::Tasks;
