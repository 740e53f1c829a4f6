//! Laws of the logs that nodes write, each the contract of a function that does nothing.

ghost use Rattle.std.specs.Prelude.{List};
ghost use Rattle.squall_protocol.specs.declared.event.Node.{Node};
ghost use Rattle.squall_protocol.specs.Worlds.{WorldValue};
ghost use Rattle.squall_protocol.specs.Promises.{IsReached};
ghost use Rattle.squall_audit.specs.Apart.{NodesAreApart};
ghost use Rattle.squall_audit.specs.Lines.{Line, LogsTell};
ghost use Rattle.squall_audit.specs.Merging.{EventsEnable, MergingIsComplete};
ghost use Rattle.squall_audit.specs.Logs.{HasLogs, AreFirst, ComesNext, NoRunHasMore};
ghost use Rattle.squall_audit.specs.Logs.{OneNodeKnows, OriginsKnow, WhatComesHappens, ReportsComeAlone, LogsAreJudged, LogsAreWritten, LogsAnswer, RunsReach};

/// An event at one node changes nothing at another: neither what that one has received, nor its keys
/// if it is a partition, nor its courses if it is the leader. It takes away no partition, chunk or
/// message.
pub fn nodes_are_apart()
    ensures { NodesAreApart }
{}

/// A node's own lines decide what it knows and keeps after a run: what it has received, the keys of a
/// partition, the courses of the leader. So two runs with the same lines at a node leave it the same.
pub fn logs_tell()
    ensures { LogsTell }
{}

/// Events only ever enable others: if a node can do something and answer so, then it can after
/// whatever another node does.
pub fn events_enable()
    ensures { EventsEnable }
{}

/// So logs of nodes are merged without a choice that has to be taken back. Take any next line of a
/// log that can happen. If no next line can happen, then no run of lines of these logs has any.
pub fn merging_is_complete()
    ensures { MergingIsComplete }
{}

/// A log needs no line of what was sent. If each thing that a report says is known to some node, then
/// one node knows the whole report, and can send it (`sender`). The node from which a thing comes
/// always knows it: the partition of a load or completion, and else the leader (`origin`). So a run that has the logs goes on to
/// one in which a node receives the report (`line`). A message of several reports is received report
/// by report (`reports`).
pub fn what_comes_happens()
    ensures sender { OneNodeKnows }
    ensures origin { OriginsKnow }
    ensures line { WhatComesHappens }
    ensures reports { ReportsComeAlone }
{}

/// Logs without what was sent are merged in the same way: if no next line of any log can come, then
/// no run has one, whatever was sent in it (`judged`). In that run a node may have received in
/// one message what its log has as several lines. A log with a line for each message is such a log, too
/// (`written`). What holds in every run holds where a run that has the logs ends (`reached`).
pub fn logs_are_judged()
    ensures judged { LogsAreJudged }
    ensures written { LogsAreWritten }
    ensures reached { RunsReach }
{}

/// A node's own log decides what it answers. So a line with a wrong answer comes next in no run in
/// which the node's earlier lines are those of its log.
pub fn logs_answer()
    ensures { LogsAnswer }
{}

/// An audit may say this once no next line of any log can come: no run has any line that is left.
pub fn what_is_left_is_in_no_run()
    ensures { (s u : WorldValue) (logs taken : Node → List Line) → IsReached s → HasLogs s taken u → AreFirst taken logs
        → (ComesNext u logs taken → ⊥) → NoRunHasMore s logs taken }
{
    logs_are_judged();
}
