//! Laws of what leaders hear, and of leaders that are rebuilt from a log, each the contract of a
//! function that does nothing.

ghost use Rattle.std.specs.Prelude.{◌≡◌, List, None};
ghost use Rattle.squall_board.specs.Boards.{IsBoard};
ghost use Rattle.squall_wire.specs.declared.message.Message.{Message};
ghost use Rattle.squall_wire.specs.Messages.{IsMessage, spell};
ghost use Rattle.squall_wire.specs.Hearing.{new_feed};
ghost use Rattle.squall_c_leaders.specs.Nodes.{NodeValue, heard_node};
ghost use Rattle.squall_c_leaders.specs.Feeding.{HearsPiece};
ghost use Rattle.squall_leader.specs.Leaders.{LeaderValue};
ghost use Rattle.squall_c_leaders.specs.Replay.{LeaderCall, Try, Replays, Ran, log_of};

/// The same calls, if each is done, lead from one leader to one leader only. And a leader that is
/// rebuilt from the log of the calls that were done equals the one that made them among others that
/// failed.
pub fn leader_replay()
    ensures one { (l m n : LeaderValue) (calls : List LeaderCall) → Replays l calls m → Replays l calls n → m ≡ n }
    ensures logged { (l m : LeaderValue) (tries : List Try) → Ran l tries m → Replays l (log_of tries) m }
    ensures rebuilt { (l m n : LeaderValue) (tries : List Try) → Ran l tries m → Replays l (log_of tries) n → n ≡ m }
{}

/// A whole frame leaves what it leaves if it is fed to a node to which nothing was fed before.
pub fn leader_hears_as_if_fed()
    ensures { (n : NodeValue) (m : Message) → IsBoard n.leader.board → IsMessage m → n.feed ≡ new_feed → HearsPiece n (spell m) None (heard_node n m) }
{}
