//! Laws of frames and of streams of them, each the contract of a function that does nothing.

ghost use Rattle.std.specs.Prelude.{◌≡◌, ◌++◌, ℕ, List, [], map, Option, None, Some};
ghost use Rattle.std.specs.List.{AllByRecursion, concat};
ghost use Rattle.squall_wire.specs.declared.fault.WireFault.{WireFault};
ghost use Rattle.squall_report.specs.Told.{SameTold};
ghost use Rattle.squall_board.specs.Boards.{told};
ghost use Rattle.squall_wire.specs.declared.message.Message.{Message as MessageValue};
ghost use Rattle.squall_wire.specs.declared.message.Message.TheVariants.{Delta};
ghost use Rattle.squall_wire.specs.BoardOf.{board_of_lists};
ghost use Rattle.squall_wire.specs.Messages.{lists_of, body_of, spell, spell_all, IsMessage};
ghost use Rattle.squall_wire.specs.Heard.{heard_of, heard_with};
ghost use Rattle.squall_wire.specs.Hearing.{IsHeard, FeedValue, new_feed, HearsOn, HearsAll};

use squall_board::Board;
use squall_board::laws::equal_facts_equal_boards;

/// Each message has one frame, and no frame begins another: bytes that begin with the frames of
/// two messages have one message, and go on alike after it.
pub fn one_frame()
    ensures { (m n : MessageValue) (x y : List ℕ) → IsMessage m → IsMessage n → spell m ++ x ≡ spell n ++ y → (m ≡ n) × (x ≡ y) }
{}

/// A stream has one reading: one list of messages, one fault or none, and one rest. So the messages
/// that a feed has given are those whose frames begin the stream, and there can be no others.
pub fn one_hearing()
    ensures { (stream : List ℕ) (ms ns : List MessageValue) (f g : Option WireFault) (r q : List ℕ) → IsHeard stream ms f r
        → IsHeard stream ns g q → (ms ≡ ns) × (f ≡ g) × (r ≡ q) }
{}

/// The frames of messages, one after the other, are heard as these messages, with no fault and
/// nothing left.
pub fn spelled_messages_are_heard()
    ensures { (ms : List MessageValue) → AllByRecursion IsMessage ms → IsHeard (spell_all ms) ms None [] }
{}

/// What is heard first, and then in what was left and the bytes that come after it, is heard in
/// the whole stream.
pub fn pieces_are_one_stream()
    ensures { (s t : List ℕ) (ms ns : List MessageValue) (f : Option WireFault) (r q : List ℕ) → IsHeard s ms None r
        → IsHeard (r ++ t) ns f q → IsHeard (s ++ t) (ms ++ ns) f q }
{}

/// After a fault nothing more can be heard: whatever bytes come, the messages stay those before
/// it, and the fault stays.
pub fn faults_stay()
    ensures { (s t : List ℕ) (ms : List MessageValue) (f : WireFault) (r : List ℕ) → IsHeard s ms (Some f) r → IsHeard (s ++ t) ms (Some f) (r ++ t) }
{}

/// Two pieces that a feed takes one after the other give what both give as one piece, and leave
/// the same feed.
pub fn pushes_are_one()
    ensures { (old middle new : FeedValue) (s t : List ℕ) (ms ns : List MessageValue) (f : Option WireFault) → HearsOn old s ms None middle
        → HearsOn middle t ns f new → HearsOn old (s ++ t) (ms ++ ns) f new }
{}

/// What comes after a piece with a fault is not heard. The feed would hear the same in one piece of
/// it and any bytes after it.
pub fn faults_end_the_stream()
    ensures { (old new : FeedValue) (s t : List ℕ) (ms : List MessageValue) (f : WireFault) → HearsOn old s ms (Some f) new
        → HearsOn old (s ++ t) ms (Some f) new }
{}

/// A new feed that has taken pieces gave the messages whose frames begin the stream of all the
/// pieces. Its fault is that of what follows them, and what waits in it is the rest of the stream.
pub fn pieces_begin_the_stream()
    ensures { (pieces : List (List ℕ)) (ms : List MessageValue) (f : Option WireFault) (new : FeedValue) → HearsAll new_feed pieces ms f new
        → HearsOn new_feed (concat pieces) ms f new }
{}

/// How a stream is cut into pieces does not change what is heard. Two new feeds that take the
/// pieces of one stream, cut in two ways, give the same messages and the same fault, and end equal.
pub fn cutting_tells_nothing()
    ensures { (ps qs : List (List ℕ)) (ms ns : List MessageValue) (f g : Option WireFault) (new end : FeedValue) → concat ps ≡ concat qs
        → HearsAll new_feed ps ms f new → HearsAll new_feed qs ns g end → (ms ≡ ns) × (f ≡ g) × (new ≡ end) }
{}

/// The openings, the issues and the cells of a board, joined one after another, make that board.
pub fn lists_make_the_board(board: &Board)
    ensures { board_of_lists (lists_of board.now) ≡ board.now }
{
    board.known();
}

/// What is heard in a stream is what its frames say, taken one after the other.
#[tactic(auto, using(crate::specs::HeardLaws::heard_is))]
pub fn heard_frame_by_frame()
    ensures { (stream : List ℕ) (ms : List MessageValue) (f : Option WireFault) (r : List ℕ) → IsHeard stream ms f r
        → heard_of stream ≡ heard_with (map body_of ms) f r }
{}

/// Boards that tell the same have one frame, whatever reports and messages made them.
pub fn same_facts_same_frame(a: &Board, b: &Board)
    ensures { SameTold (told a.now) (told b.now) → spell (Delta a.now) ≡ spell (Delta b.now) }
{
    equal_facts_equal_boards(a, b);
}
