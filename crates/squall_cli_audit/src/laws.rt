//! Laws of audits, each the contract of a function that does nothing.

ghost use Rattle.squall_cli_audit.specs.LogTexts.{TextsAreOneLog, BadTextsAreNoLogs};
ghost use Rattle.squall_cli_audit.specs.Audits.{AcceptedAreOfARun};

/// A text is the log of one node at most, with the same entries in the same lines. A text with a bad
/// line is no log (`bad`).
pub fn one_log()
    ensures one { TextsAreOneLog }
    ensures bad { BadTextsAreNoLogs }
{}

/// If an audit is fine, there is a run from the first world of the plans. Its lines at each node are the
/// log of the node's file, and all that is proved of runs holds where it ends.
pub fn accepted_logs_are_a_run()
    ensures { AcceptedAreOfARun }
{}
