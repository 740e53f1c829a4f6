//! Definitions over lists of reports, computed on worked rows.

ghost use Rattle.std.specs.Prelude.{◌≡◌, List, [], ◌∷◌, Option, Some, None};
ghost use Rattle.squall_span.specs.Spans.{interval};
ghost use Rattle.squall_report.specs.declared.report.ReportKind.TheVariants.{Done, Opened, Issued};
ghost use Rattle.squall_report.specs.Issues.{PlanPair, plan_pair};
ghost use Rattle.squall_report.specs.Openings.{opened_by};
ghost use Rattle.squall_report.specs.Newest.{newest_by};

/// Sub-plans 1 and then 0 of number 1 opened are two, and none of number 2 is.
fn openings_of_a_list()
    ensures two { opened_by (Opened 1 1 ∷ Done 1 0 4 ∷ Opened 1 0 ∷ []) 1 ≡ 2 }
    ensures none { opened_by (Opened 1 1 ∷ Done 1 0 4 ∷ Opened 1 0 ∷ []) 2 ≡ 0 }
{}

/// The newest course is the one of the greatest number, in whatever order issues came. A number
/// under which pairs differ is passed over, and so are the first number and those below it.
fn newest_of_a_list()
    ensures greatest { (p q : PlanPair) → newest_by (Issued 1 p ∷ Issued 3 q ∷ Issued 2 p ∷ []) 1 ≡ Some (3, q) }
    ensures clash { newest_by (Issued 3 (plan_pair [] []) ∷ Issued 2 (plan_pair [] []) ∷ Issued 3 (plan_pair (record {
      span = interval 0 1;
      part = 1;
    } ∷ []) []) ∷ []) 1 ≡ Some (2, plan_pair [] []) }
    ensures none { (p q : PlanPair) → newest_by (Issued 1 p ∷ Issued 3 q ∷ Issued 2 p ∷ []) 3 ≡ None }
{}

#[test]
fn worked_rows() {
    openings_of_a_list();
    newest_of_a_list();
}
