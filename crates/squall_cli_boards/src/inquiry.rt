//! What is answered to an inquiry about files.

ghost use Rattle.std.specs.Prelude.{◌≢◌, IfOk, map, string_bytes};
ghost use Rattle.squall_cli_command.specs.declared.inquiry.Inquiry.TheVariants.{Audit};
ghost use Rattle.squall_cli_boards.specs.Inquiries.{IsAnswerTo};

use crate::answer::Answer;
use crate::boards::{board_answer, digest_answer, merge_answer};
use crate::courses::{
    legs_answer, named_routes_answer, picture_answer, routes_answer, status_answer,
};
use crate::exchange::{beyond_answer, cover_answer, repair_answer};
use crate::file::NamedFile;
use crate::planned::{diff_answer, names_answer, plan_answer};
use crate::plans::report_answer;
use crate::shared::split_answer;
use squall_cli_command::Inquiry;
use std::alloc::{AllocError, Global};

/// The answer to the inquiry about the files, in their order. The words count only for a report, routes,
/// legs, a plan, shares and keys. Words that are no report are refused without a line. Logs are not judged here.
/// It fails only if an allocation fails.
pub fn answer_to(
    alloc: Global,
    inquiry: Inquiry,
    words: &[String],
    files: &[NamedFile],
) -> Result<Answer, AllocError>
    requires { inquiry ≢ Audit }
    ensures { IfOk result (λ a. IsAnswerTo inquiry (map string_bytes words.now) files.now a) }
{
    match inquiry {
        Inquiry::Report => report_answer(alloc, words, files),
        Inquiry::Board(form) => board_answer(alloc, form, files),
        Inquiry::Status(how) => status_answer(alloc, how, files),
        Inquiry::Picture => picture_answer(alloc, files),
        Inquiry::Routes => routes_answer(alloc, words, files),
        Inquiry::NamedRoutes => named_routes_answer(alloc, words, files),
        Inquiry::Legs(form) => legs_answer(alloc, form, words, files),
        Inquiry::Merge => merge_answer(alloc, files),
        Inquiry::Beyond => beyond_answer(alloc, files),
        Inquiry::Cover => cover_answer(alloc, files),
        Inquiry::Digest => digest_answer(alloc, files),
        Inquiry::Repair => repair_answer(alloc, files),
        Inquiry::Plan => plan_answer(alloc, words, files),
        Inquiry::Split => split_answer(alloc, words),
        Inquiry::Diff => diff_answer(alloc, files),
        Inquiry::Names => names_answer(alloc, words),
        Inquiry::Audit => unreachable!(),
    }
}
