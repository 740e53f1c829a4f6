//! Boards and digests as frames of bytes.
//!
//! A frame holds one message: a delta, which is a board, or a digest of one. Each message has one
//! frame, and no frame begins another. So a stream of frames may be cut anywhere.
//!
//! # Example
//!
//! A board is encoded into a frame, and the frame decodes to the same board.
//!
//! ```rust
//! fn frame_and_back(rt: &impl Abort, alloc: Global, board: &Board) -> Result<(), Fail> {
//!     let frame = encode_board(alloc, board)?;
//!     let (message, used) = decode(alloc, &frame)?;
//!     assert!(rt; used == frame.len());
//!     assert!(rt; matches!(&message, Message::Delta(read) if *read == *board));
//!     Ok(())
//! }
//! ```
//!
//! Its tests are in `crates/squall_test_frames/src/wire.rt`.
#![tactic(auto)]

mod build;
mod cells;
mod decoding;
mod digest;
mod encoding;
mod fault;
mod feed;
mod issue;
mod items;
pub mod laws;
mod message;
mod order;
mod reading;
mod write;

pub use cells::write_lent_cell;
pub use decoding::decode;
pub use digest::{Digest, DigestFault, DigestRow, IssueRow};
pub use encoding::{EncodeFault, cell_bytes, encode, encode_board};
pub use fault::WireFault;
pub use feed::{Feed, FeedFault, Heard, hear};
pub use items::issue_bytes;
pub use message::Message;
