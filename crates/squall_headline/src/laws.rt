//! The law of what pieces of a stream bring: the contract of a function that does nothing.

ghost use Rattle.std.specs.Prelude.{◌≡◌, ℕ, ◌++◌, List, [], Option};
ghost use Rattle.squall_board.specs.Boards.{BoardValue};
ghost use Rattle.squall_wire.specs.declared.fault.WireFault.{WireFault};
ghost use Rattle.squall_wire.specs.declared.message.Message.{Message};
ghost use Rattle.squall_wire.specs.Hearing.{FeedValue, HearsOn};
ghost use Rattle.squall_headline.specs.Ways.{Sent, TakesIn, AreComing, Brings};

/// If messages are on their way to a feed, a piece of their stream brings the first of them: those
/// whose frames it ends. The others stay on their way. Once all bytes have come, no message is on
/// its way. So between two pieces there may be pieces for other feeds, and any other calls.
pub fn pieces_bring_messages()
    ensures piece { (sent : List Sent) (old new : FeedValue) (piece coming : List ℕ) (messages : List Message)
        (fault : Option WireFault) (before after : BoardValue)
        → AreComing sent old (piece ++ coming) → HearsOn old piece messages fault new → TakesIn messages before after
        → Brings sent piece coming before after new }
    ensures last { (sent : List Sent) (feed : FeedValue) → AreComing sent feed [] → sent ≡ [] }
{}
