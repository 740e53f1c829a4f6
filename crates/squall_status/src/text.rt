//! How far a course has come, as lines.

ghost use Rattle.std.specs.Prelude.{◌≡◌, ◌++◌, OnOk, length, string_bytes};
ghost use Rattle.std.specs.List.{count_by};
ghost use Rattle.squall_status.specs.Shares.{is_over, is_ended, course_share};
ghost use Rattle.squall_status.specs.Texts.{open_text, course_head, course_tail, course_line, subplan_line, subplan_lines};
ghost use Rattle.squall_status.specs.Texts.{progress_text, move_text, move_line, is_shown, shown_line, move_lines, status_text};

use crate::progress::{MoveStatus, Progress};
use crate::share::{complete_moves, course_share, ended_subplans};
use crate::status::CourseStatus;
use crate::subplan::SubplanStatus;
use squall_course::Move;
use std::alloc::AllocError;

/// Which moves are shown.
#[derive(Clone, Copy, Debug, PartialEq, Eq)]
pub enum Shown {
    /// Each move.
    EachMove,
    /// Each move that is not complete.
    Waiting,
}

impl Shown {
    /// Whether the move is shown.
    fn shows(self, status: &MoveStatus) -> bool
        ensures { result ≡ is_shown self status.now }
    {
        match self {
            Shown::EachMove => true,
            Shown::Waiting => !status.progress.is_complete(),
        }
    }
}

/// Adds which sub-plan is open.
fn add_open(open_sub: Option<u32>, out: &mut String) -> Result<(), AllocError>
    ensures { OnOk result (string_bytes out.new ≡ string_bytes out.old ++ open_text open_sub) }
{
    match open_sub {
        Some(sub) => write!(out, "{sub}"),
        None => write!(out, "none"),
    }
}

/// Adds how the line of the course begins: its number, and how many of its moves are complete and of
/// its sub-plans have ended.
fn add_head(status: &CourseStatus, out: &mut String) -> Result<(), AllocError>
    ensures { OnOk result (string_bytes out.new ≡ string_bytes out.old
        ++ course_head status.now.number (count_by is_over status.now.moves) (length status.now.moves)
        (count_by is_ended status.now.subplans) (length status.now.subplans)) }
{
    let number = status.number();
    let over = complete_moves(status.moves());
    let moves = status.moves().len();
    let ended = ended_subplans(status.subplans());
    let subplans = status.subplans().len();
    write!(
        out,
        "course {number} moves {over} of {moves} sub-plans {ended} of {subplans} open "
    )
}

/// Adds how that line ends: how many of its keys are loaded, and the share of the course.
fn add_tail(status: &CourseStatus, out: &mut String) -> Result<(), AllocError>
    ensures { OnOk result (string_bytes out.new ≡ string_bytes out.old
        ++ course_tail status.now.loaded status.now.keys (course_share status.now.moves)) }
{
    let loaded = status.loaded();
    let keys = status.keys();
    let share = course_share(status.moves());
    write!(out, " loaded {loaded} of {keys} keys share {share}/1000\n")
}

/// Adds the line of the course, as [`add_status`] does. An error means that an allocation failed.
pub fn add_course_line(status: &CourseStatus, out: &mut String) -> Result<(), AllocError>
    ensures { OnOk result (string_bytes out.new ≡ string_bytes out.old ++ course_line status.now) }
{
    add_head(status, out)?;
    add_open(status.open_subplan(), out)?;
    add_tail(status, out)
}

/// Adds the line of a sub-plan, as [`add_status`] does. An error means that an allocation failed.
pub fn add_subplan_line(status: &SubplanStatus, out: &mut String) -> Result<(), AllocError>
    ensures { OnOk result (string_bytes out.new ≡ string_bytes out.old ++ subplan_line status.now) }
{
    let sub = status.sub;
    let receivers = status.receivers;
    let done = status.done;
    write!(out, "sub-plan {sub} receivers {done} of {receivers} done\n")
}

/// Adds the lines of the sub-plans.
fn add_subplans(subplans: &[SubplanStatus], out: &mut String) -> Result<(), AllocError>
    ensures { OnOk result (string_bytes out.new ≡ string_bytes out.old ++ subplan_lines subplans.now) }
{
    for status in subplans {
        add_subplan_line(status, out)?;
    }
    Ok(())
}

/// Adds the progress of a move of `keys` keys.
fn add_progress(keys: u64, progress: Progress, out: &mut String) -> Result<(), AllocError>
    ensures { OnOk result (string_bytes out.new ≡ string_bytes out.old ++ progress_text keys progress) }
{
    match progress {
        Progress::NotStarted => write!(out, "not started"),
        Progress::Partial { loaded, missing } => {
            write!(out, "loaded {loaded} of {keys} missing {missing}")
        }
        Progress::Complete => write!(out, "complete"),
    }
}

/// Adds the keys of a move, its source and its destination, and its sub-plan.
fn add_moving(moving: &Move, out: &mut String) -> Result<(), AllocError>
    ensures { OnOk result (string_bytes out.new ≡ string_bytes out.old ++ move_text moving.now) }
{
    let span = moving.span;
    let source = moving.source;
    let dest = moving.dest;
    let sub = moving.sub;
    write!(out, "move {span} {source} to {dest} sub {sub}")
}

/// Adds the line of a move, as [`add_status`] does. An error means that an allocation failed.
pub fn add_move_line(status: &MoveStatus, out: &mut String) -> Result<(), AllocError>
    ensures { OnOk result (string_bytes out.new ≡ string_bytes out.old ++ move_line status.now) }
{
    add_moving(&status.moving, out)?;
    write!(out, " ")?;
    add_progress(status.keys(), status.progress, out)?;
    write!(out, "\n")
}

/// Adds the line of a move if it is shown.
fn add_shown(shown: Shown, status: &MoveStatus, out: &mut String) -> Result<(), AllocError>
    ensures { OnOk result (string_bytes out.new ≡ string_bytes out.old ++ shown_line shown status.now) }
{
    if shown.shows(status) {
        add_move_line(status, out)?;
    }
    Ok(())
}

/// Adds the lines of the moves that are shown.
fn add_moves(shown: Shown, moves: &[MoveStatus], out: &mut String) -> Result<(), AllocError>
    ensures { OnOk result (string_bytes out.new ≡ string_bytes out.old ++ move_lines shown moves.now) }
{
    for status in moves {
        add_shown(shown, status, out)?;
    }
    Ok(())
}

/// Adds how far the course has come. There is a line for the course, one for each of its sub-plans
/// by rising number, and one for each move that is shown, by rising key:
///
/// `course N moves C of M sub-plans E of S open K loaded L of T keys share P/1000`, with `open none`
/// if none is. C moves are complete, E sub-plans have ended, and P is the share by [`course_share`];
/// `sub-plan K receivers D of R done`;
/// `move [LO,HI) P to Q sub K`, and then `complete`, `not started` or
/// `loaded L of T missing [LO,HI)`.
///
/// An error means that an allocation failed.
pub fn add_status(status: &CourseStatus, shown: Shown, out: &mut String) -> Result<(), AllocError>
    ensures { OnOk result (string_bytes out.new ≡ string_bytes out.old ++ status_text shown status.now) }
{
    add_course_line(status, out)?;
    add_subplans(status.subplans(), out)?;
    add_moves(shown, status.moves(), out)
}
