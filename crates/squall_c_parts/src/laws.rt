//! A law of what partitions hear: the contract of a function that does nothing.

ghost use Rattle.std.specs.Prelude.{◌≡◌, None};
ghost use Rattle.squall_board.specs.Boards.{IsBoard};
ghost use Rattle.squall_wire.specs.declared.message.Message.{Message};
ghost use Rattle.squall_wire.specs.Messages.{IsMessage, spell};
ghost use Rattle.squall_wire.specs.Hearing.{new_feed};
ghost use Rattle.squall_c_parts.specs.Nodes.{NodeValue};
ghost use Rattle.squall_c_parts.specs.PartHearing.{TakesMessage};
ghost use Rattle.squall_c_parts.specs.PartFeeding.{HearsPiece};

/// A whole frame leaves what it leaves if it is fed to a node to which nothing was fed before.
pub fn part_hears_as_if_fed()
    ensures { (n k : NodeValue) (m : Message) → IsBoard n.part.board → IsMessage m → n.feed ≡ new_feed → TakesMessage n m k → HearsPiece n (spell m) None k }
{}
