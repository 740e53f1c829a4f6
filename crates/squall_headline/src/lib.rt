//! What squall promises, in one place: start here to see what the proofs are for.
//!
//! [`headline`] is the promise. The definitions that it cites are in `specs/`. `Ways.antt` says by
//! which calls reports come, and its last lines say to which partition a key goes.
//!
//! Its tests are in `crates/squall_test_nodes`.
#![tactic(auto)]

ghost use Rattle.std.specs.Prelude.{◌≡◌, ℕ, ◌<◌, List};
ghost use Rattle.squall_key.specs.Keys.{top};
ghost use Rattle.squall_plan.specs.declared.range.PlanRange.{PlanRange};
ghost use Rattle.squall_plan.specs.Ranges.{owner_of};
ghost use Rattle.squall_report.specs.Facts.{reports_say};
ghost use Rattle.squall_board.specs.Boards.{HasTaken};
ghost use Rattle.squall_board.specs.CourseRoute.{course_of_reports};
ghost use Rattle.squall_wire.specs.declared.message.Message.TheVariants.{Delta};
ghost use Rattle.squall_wire.specs.Messages.{spell};
ghost use Rattle.squall_router.specs.Routers.{route_of_router, IsTableOf};
ghost use Rattle.squall_headline.specs.Ways.{Way, reports_of, LeadTo, BringTheSame, IsSent};

pub mod laws;

use squall_board::Board;
use squall_router::Router;

/// What holds of two boards to which the same reports came, by whatever calls, in whatever order
/// and however often. The reports may come one by one, in lists, in merged boards, or in frames.
/// Frames that were encoded may come among digests and cut anywhere. They are pushed into feeds in
/// any state, and what these give is absorbed.
///
/// - The boards are equal, and have the same frame.
/// - Routers with these boards and one first course have the same table.
/// - A router sends a key to its new partition exactly if its load, or that partition's completion,
///   is reported for the key's own sub-plan under the newest course's number. Otherwise it sends
///   the key to its old partition.
///
/// A call's own contract says that it leads from the board before it to the board after it. These
/// are the clauses `takes` of [`Board::take`], [`Board::take_all`], [`Board::merge`],
/// [`Router::take`] and [`Router::absorb`], and `heard` of `Feed::push`. The law
/// [`pieces_bring_messages`] says which messages a piece of a stream brings, if other calls come
/// between the pieces. The clause `takes` of [`Board::merge`] says that a merge loses nothing and
/// adds nothing.
pub fn headline(a: &Board, b: &Board, one: &Router, other: &Router)
    // Nothing is lost and nothing added: a board tells what the reports tell that came to it.
    ensures reports { (ws : List Way) → LeadTo ws a.now → HasTaken a.now (reports_of ws) }

    // Boards to which the same came are equal, and their frames are the same bytes.
    ensures boards { (ws vs : List Way) → LeadTo ws a.now → LeadTo vs b.now → BringTheSame ws vs → a.now ≡ b.now }
    ensures frames { (ws vs : List Way) → LeadTo ws a.now → LeadTo vs b.now → BringTheSame ws vs → spell (Delta a.now) ≡ spell (Delta b.now) }

    // So are the tables of routers of one first course to which the same came.
    ensures tables { (ws vs : List Way) (legs entries : List PlanRange)
        → one.now.first ≡ other.now.first → LeadTo ws one.now.board → LeadTo vs other.now.board → BringTheSame ws vs
        → IsTableOf one.now legs → IsTableOf other.now entries → legs ≡ entries }

    // And a router's table, and its answers, send each key where the reports send it.
    ensures routes { (ws : List Way) (k : ℕ) → LeadTo ws one.now.board → k < top
        → IsSent (course_of_reports one.now.first (reports_of ws)) (reports_say (reports_of ws)) k (route_of_router one.now k) }
    ensures entries { (legs : List PlanRange) (k : ℕ) → IsTableOf one.now legs → k < top → owner_of legs k ≡ route_of_router one.now k }
{
    a.known();
    b.known();
    one.known();
    other.known();
}
