//! Clients of the laws of logs: two small logs that a run has, and one that no run has.

ghost use Rattle.squall_test_nodes.specs.Audits.{OpeningIsHeard, HearsayIsRefused};

use squall_audit::laws::{what_comes_happens, what_is_left_is_in_no_run};

/// The leader's log says that it opened a sub-plan, and a router's log that it received that report:
/// there is a run with these logs, if the plans differ.
pub fn an_opening_is_heard()
    ensures { OpeningIsHeard }
{
    what_comes_happens();
}

/// The router's log says so, and no other log has a line: no run has that line.
pub fn hearsay_is_refused()
    ensures { HearsayIsRefused }
{
    what_is_left_is_in_no_run();
}
