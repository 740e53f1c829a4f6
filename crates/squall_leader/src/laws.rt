//! Laws of leaders, each the contract of a function that does nothing.

ghost use Rattle.std.specs.Prelude.{◌≡◌, ◌<◌, ◌≤◌, ℕ, List, Result, Ok};
ghost use Rattle.squall_plan.specs.declared.range.PlanRange.{PlanRange};
ghost use Rattle.squall_course.specs.Change.{Change};
ghost use Rattle.squall_report.specs.declared.report.ReportKind.{ReportKind};
ghost use Rattle.squall_report.specs.Issues.{PlanPair};
ghost use Rattle.squall_leader.specs.declared.fault.LeaderFault.{LeaderFault as Fault};
ghost use Rattle.squall_leader.specs.Leaders.{LeaderValue, IsBegun, IsBegunFrom, IsOpened};

/// A leader's numbers rise: a course that it begins has a greater number than any that it used, and
/// the last number never falls.
pub fn numbers_rise()
    ensures begun { (l m : LeaderValue) (plan : List PlanRange) (c : Change) → IsBegun l plan (Ok c) m → (l.last < c.number) × (m.last ≡ c.number) }
    ensures from { (l m : LeaderValue) (old new : List PlanRange) (c : Change) → IsBegunFrom l old new (Ok c) m → (l.last < c.number) × (m.last ≡ c.number) }
    ensures kept { (l m : LeaderValue) (plan : List PlanRange) (answer : Result Change Fault) → IsBegun l plan answer m → l.last ≤ m.last }
    ensures kept_from { (l m : LeaderValue) (old new : List PlanRange) (answer : Result Change Fault) → IsBegunFrom l old new answer m → l.last ≤ m.last }
    ensures open { (l m : LeaderValue) (answer : Result (ReportKind PlanPair) Fault) → IsOpened l answer m → m.last ≡ l.last }
{}
