//! Why a line is bad.

ghost use Rattle.std.specs.Prelude.{◌≡◌, ◌++◌, Some, OnOk, codes, string_bytes};
ghost use Rattle.squall_cli_words.specs.Reasons.{text_of_reason, bad_line};

use squall_plan::PlanFault;
use std::alloc::AllocError;
use std::fmt;

/// Why a line is bad, in the order in which the reasons are tried.
#[derive(Clone, Copy, Debug)]
pub enum Reason {
    /// It has more than 1048576 bytes.
    Long,
    /// Its first word names no kind of line, or the words after it do not have that kind's form.
    Word,
    /// A line of its kind may not come here.
    Order,
    /// A value lies outside its limits, or the span has no key.
    Limit,
    /// Its text is no plan.
    Plan(PlanFault),
}

impl fmt::Display for Reason {
    ghost output = { λ reason. Some (text_of_reason reason) };

    fn fmt<W: fmt::Write>(&self, f: &mut fmt::Formatter<W>) -> fmt::Result {
        match self {
            Reason::Long => write!(f, "long"),
            Reason::Word => write!(f, "word"),
            Reason::Order => write!(f, "order"),
            Reason::Limit => write!(f, "limit"),
            Reason::Plan(fault) => write!(f, "plan {fault}"),
        }
    }
}

/// Adds why the line of that number is bad.
pub fn add_bad_line(number: u64, reason: Reason, out: &mut String) -> Result<(), AllocError>
    ensures { OnOk result (string_bytes out.new ≡ string_bytes out.old ++ (bad_line number reason ++ codes "\n")) }
{
    write!(out, "bad line {number}: {reason}\n")
}
