//! What a race shows.

ghost use Rattle.std.specs.Prelude.{◌≡◌, ◌++◌, ℕ, List, Some, IfOk, IfErr, OnOk, string_bytes};
ghost use Rattle.std.specs.Arc.{arc_value};
ghost use Rattle.squall_board.specs.Boards.{empty_board};
ghost use Rattle.squall_cluster.specs.Race.{AllRead};
ghost use Rattle.squall_cluster.specs.RaceFaults.{RaceFaultOf};
ghost use Rattle.squall_cli_race.specs.RaceFiles.{readers_of, capacity_of, sizes_of_race};
ghost use Rattle.squall_cli_race.specs.RaceText.{route_lines, board_of_lists, MayShow, RefusesLine, ShowsRace, EndsIn};

use crate::file::{BadLine, RaceFile, Stage};
use crate::lines::read_file;
use squall_board::Board;
use squall_cli_lines::Ended;
use squall_cli_words::{Reason, add_bad_line, add_board};
use squall_cluster::{Actor, Gate, RaceFault, Raced, Start, Tasks, race};
use squall_course::Course;
use squall_key::Key;
use std::alloc::{AllocError, Global};
use std::sync::{Arc, Wait};
use std::thread::Threads;

/// For how many letters an inbox has room if no line says so.
const CAPACITY: u32 = 16;

/// How many readers there are if no line says so.
const READERS: u32 = 1;

/// A gate at which nobody waits.
struct Open;

impl Gate for Open {
    fn before(&self, _actor: Actor, _call: u64) {}

    fn after(&self, _actor: Actor, _call: u64) {}
}

/// Adds the route of each key by the board. It fails (memory).
fn add_routes(
    course: &Course,
    board: &Board,
    keys: &[Key],
    out: &mut String,
) -> Result<(), AllocError>
    ensures { OnOk result (string_bytes out.new ≡ string_bytes out.old ++ route_lines course.now board.now keys.now) }
{
    for key in keys {
        let part = board.route(course, *key);
        write!(out, "route {key} {part}\n")?;
    }
    Ok(())
}

/// Adds why the line of a number is bad.
fn refuse_line(number: u64, reason: Reason, out: &mut String) -> Result<Ended, AllocError>
    ensures { IfOk result (λ ended. (shown : List ℕ) × (string_bytes out.new ≡ string_bytes out.old ++ shown) × RefusesLine number reason ended shown) }
{
    add_bad_line(number, reason, out)?;
    Ok(Ended::Refused)
}

/// How many readers the race of a file has.
fn readers_of(file: &RaceFile) -> usize
    ensures { result ≡ readers_of file.now.readers }
{
    file.readers.unwrap_or(READERS) as usize
}

/// For how many letters the inbox of the race of a file has room.
fn capacity_of(file: &RaceFile) -> usize
    ensures { result ≡ capacity_of file.now.capacity }
{
    file.capacity.unwrap_or(CAPACITY) as usize
}

/// The race of a file, from the board of no report. It has as many senders and readers, and as much room
/// in its inbox, as the file says. Each sender has its reports, and each reader all keys.
fn race_of<R: Threads + Wait + Sync>(
    rt: &R,
    alloc: Global,
    file: &RaceFile,
    course: &Arc<Course>,
) -> Result<Raced, RaceFault>
    ensures board { IfOk result (λ raced. raced.board ≡ board_of_lists file.now.lists) }
    ensures routes { IfOk result (λ raced.
        AllRead (Some file.now.lists) (arc_value course.now) empty_board file.now.keys (readers_of file.now.readers) raced.routes.items) }
    ensures fault { IfErr result (RaceFaultOf (sizes_of_race file.now)) }
{
    let opening = Board::new(alloc);
    let tasks = Tasks {
        lists: &file.lists,
        keys: &file.keys,
        readers: readers_of(file),
        capacity: capacity_of(file),
    };
    race(rt, alloc, Start::new(course, &opening), tasks, &Open)
}

/// Runs the race, and adds what it comes to. It fails (memory).
fn run_race<R: Threads + Wait + Sync>(
    rt: &R,
    alloc: Global,
    file: &RaceFile,
    course: &Arc<Course>,
    out: &mut String,
) -> Result<Ended, AllocError>
    ensures { IfOk result (λ ended.
        (shown : List ℕ) × (string_bytes out.new ≡ string_bytes out.old ++ shown) × ShowsRace file.now (arc_value course.now) ended shown) }
{
    match race_of(rt, alloc, file, course) {
        Ok(raced) => {
            add_board(&raced.board, out)?;
            add_routes(course, &raced.board, &file.keys, out)?;
            Ok(Ended::Fine)
        }
        Err(RaceFault::NoPlace) => {
            write!(out, "refused NoPlace\n")?;
            Ok(Ended::Refused)
        }
        Err(RaceFault::NoThread) => {
            write!(out, "refused NoThread\n")?;
            Ok(Ended::Refused)
        }
        Err(_) => Err(AllocError),
    }
}

/// Runs the race that a file has set up, if both plans are read. It fails (memory).
fn run_file<R: Threads + Wait + Sync>(
    rt: &R,
    alloc: Global,
    file: &RaceFile,
    out: &mut String,
) -> Result<Ended, AllocError>
    ensures { IfOk result (λ ended. (shown : List ℕ) × (string_bytes out.new ≡ string_bytes out.old ++ shown) × EndsIn file.now file.now.plans ended shown) }
{
    match &file.stage {
        Stage::Set(course) => run_race(rt, alloc, file, course, out),
        Stage::Unplanned | Stage::Planned(_) => {
            refuse_line(file.line.saturating_add(1), Reason::Order, out)
        }
    }
}

/// Runs the race of a file's text, and adds to `out` what it shows. First come the lines of the board
/// that all reports come to, as `board` shows it in a scenario. Then comes `route K P` for each key by
/// that board. Each sender posts its reports in a thread of its own, and each reader routes each key in
/// one. The owner of the cluster takes and publishes the reports in the caller's thread.
///
/// It answers `Refused` if a line is bad, and `out` says why as in a scenario. A file that ends
/// before both plans are read lacks a line. It also answers `Refused` if a seat or a look was
/// refused to a reader, or if a thread could not be started. Then `out` says `refused NoPlace` or
/// `refused NoThread`. No thread is left running.
///
/// It fails (memory), and nothing is known of `out` then. What is promised holds if the call returns,
/// for it waits for threads.
pub fn answer_race<R: Threads + Wait + Sync>(
    rt: &R,
    alloc: Global,
    text: &[u8],
    out: &mut String,
) -> Result<Ended, AllocError>
    ensures { IfOk result (λ ended. (shown : List ℕ) × (string_bytes out.new ≡ string_bytes out.old ++ shown) × MayShow text.now ended shown) }
{
    match read_file(alloc, text)? {
        Ok(file) => run_file(rt, alloc, &file, out),
        Err(BadLine { number, reason }) => refuse_line(number, reason, out),
    }
}
