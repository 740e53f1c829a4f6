//! Messages.

use squall_board::Board;
use std::marker::Model;

/// A message: how many reports of each node its sender knew, and what else it had heard. A message
/// of a part of what its sender knew has no counts.
#[derive(Drop)]
pub(crate) struct Message {
    pub(crate) known: Vec<usize>,
    pub(crate) extra: Board,
}

impl Model for Message {
    ghost use Rattle.squall_world.specs.Nets.{MessageValue, message_with};

    ghost Value = { MessageValue };

    ghost view = { λ m. message_with m.known.items m.extra };
}
