//! Laws of pictures, each the contract of a function that does nothing.

ghost use Rattle.std.specs.Prelude.{◌≡◌, ◌↔◌, ℕ, ◌<◌, ◌≤◌, ◌^◌, List, Option, IfSome};
ghost use Rattle.std.specs.Fmt.{decimal};
ghost use Rattle.std.specs.List.{AllByRecursion};
ghost use Rattle.squall_key.specs.Keys.{top, text_of_bound};
ghost use Rattle.squall_span.specs.Spans.{Interval, text_of_span};
ghost use Rattle.squall_plan.specs.declared.range.PlanRange.{PlanRange};
ghost use Rattle.squall_plan.specs.Ranges.{IsTiling};
ghost use Rattle.squall_course.specs.declared.moving.Move.{Move};
ghost use Rattle.squall_status.specs.Texts.{open_text};
ghost use Rattle.squall_picture.specs.Bands.{move_title};
ghost use Rattle.squall_picture.specs.Plain.{IsPlain};
ghost use Rattle.squall_picture.specs.Scale.{x_of, filled};
ghost use Rattle.squall_picture.specs.Rows.{AreSideBySide};

/// The bars of a plan lie side by side from one end of the axis to the other.
pub fn bars_tile_the_axis()
    ensures { (ts : List ℕ) (rs : List PlanRange) → IsTiling 0 top rs → AreSideBySide ts 96 (x_of ts top) rs }
{}

/// No more of a band is filled than there is: all of it exactly if each key is loaded, and nothing
/// if none is.
pub fn filled_as_loaded()
    ensures most { (width loaded keys : ℕ) → loaded ≤ keys → filled width loaded keys ≤ width }
    ensures whole { (width loaded keys : ℕ) → 0 < width → 0 < keys → loaded ≤ keys → (filled width loaded keys ≡ width) ↔ (loaded ≡ keys) }
    ensures none { (width keys : ℕ) → filled width 0 keys ≡ 0 }
{}

/// No number, bound, span or move needs an escape in SVG: its text has no letter that begins or
/// ends a tag, an attribute or an entity. The definitions of a picture write all its other letters.
pub fn nothing_needs_an_escape()
    ensures numbers { (n : ℕ) → n < 2 ^ 64 → AllByRecursion IsPlain (decimal n) }
    ensures bounds { (b : ℕ) → b ≤ top → AllByRecursion IsPlain (text_of_bound b) }
    ensures spans { (s : Interval) → s.lo ≤ top → s.hi ≤ top → AllByRecursion IsPlain (text_of_span s) }
    ensures subplans { (sub : Option ℕ) → IfSome sub (λ n. n < 2 ^ 64) → AllByRecursion IsPlain (open_text sub) }
    ensures moves { (m : Move) → m.span.lo ≤ top → m.span.hi ≤ top → m.source < 2 ^ 64 → m.dest < 2 ^ 64 → m.sub < 2 ^ 64
        → AllByRecursion IsPlain (move_title m) }
{}
