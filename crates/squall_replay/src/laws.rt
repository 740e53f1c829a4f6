//! Laws of logs, each the contract of a function that does nothing.

ghost use Rattle.std.specs.Prelude.{◌≡◌, ℕ, List};
ghost use Rattle.squall_errand.specs.declared.errand.Reply.{Reply};
ghost use Rattle.squall_part.specs.Parts.{PartValue, IsPart};
ghost use Rattle.squall_part.specs.Serving.{IsReply};
ghost use Rattle.squall_replay.specs.declared.call.Call.{Call};
ghost use Rattle.squall_replay.specs.declared.call.Answer.{Answer};
ghost use Rattle.squall_replay.specs.Calls.{IsSamePart, Replays, Leads, Try, Ran, log_of};

/// A partition that is rebuilt from a log equals the one that died. From partitions that no call tells
/// apart, the same calls lead to the same answers, and to partitions that no call tells apart. So a
/// partition that is rebuilt twice is one.
pub fn one_partition()
    ensures answers { (p q r s : PartValue) (calls : List Call) (first second : List Answer) → IsPart p → IsPart q → IsSamePart p q
        → Replays p calls first r → Replays q calls second s → first ≡ second }
    ensures partition { (p q r s : PartValue) (calls : List Call) (first second : List Answer) → IsPart p → IsPart q → IsSamePart p q
        → Replays p calls first r → Replays q calls second s → IsSamePart r s }
    ensures rebuilt { (p r s : PartValue) (calls : List Call) → IsPart p → Leads p calls r → Leads p calls s → IsSamePart r s }
{}

/// A log needs no calls that were refused. What a partition did leads to what the log of the calls
/// that it answered leads to. So a partition that is rebuilt from that log is the one that made them.
pub fn part_replay()
    ensures logged { (p q : PartValue) (tries : List Try) → Ran p tries q → Leads p (log_of tries) q }
    ensures rebuilt { (p q r : PartValue) (tries : List Try) → IsPart p → Ran p tries q → Leads p (log_of tries) r → IsSamePart q r }
{}

/// Partitions that no call tells apart reply alike.
pub fn same_partitions_reply_alike()
    ensures { (p q : PartValue) (key after : ℕ) (x y : Reply) → IsSamePart p q → IsReply p key after x → IsReply q key after y → x ≡ y }
{}
