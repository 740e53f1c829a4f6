//! What a frame holds.

use crate::digest::Digest;
use squall_board::Board;

/// What one frame holds.
#[derive(Drop)]
pub enum Message {
    /// What a board holds.
    Delta(Board),
    /// The digest of a board.
    Digest(Digest),
}
