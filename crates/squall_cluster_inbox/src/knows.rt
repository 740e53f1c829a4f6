//! What an end of the inbox knows.

use crate::letter::{Letter, Parcel};
use std::collections::LinkedList;

/// What an end of the inbox knows, in the proofs alone: no value of it is made.
pub struct Knows {
    /// Whether it is a sender's.
    pub sends: bool,
    /// The sender's number.
    pub from: u64,
    /// What the sender posted.
    pub put: LinkedList<Letter>,
    /// Whether it is the taker's.
    pub owns: bool,
    /// What the taker took.
    pub taken: LinkedList<Parcel>,
    /// How many senders were made.
    pub made: u64,
    /// What each sender posted, for those whose pass the taker joined to its own.
    pub vouched: LinkedList<(u64, LinkedList<Letter>)>,
}
