//! A partition's process: a store with a log on disk, over lines.
//!
//! ```text
//! squall_store_node LOG PART OLD NEW
//! ```
//!
//! LOG is the file of the log, PART the partition's number, OLD and NEW are files of plans as JSON:
//! those of the first course, which has number 1. The program opens the log, cuts a torn tail, and
//! answers each line of its input once the record of the line is on disk.
//!
//! | Line | Answer |
//! |---|---|
//! | `put KEY TEXT`, `get KEY`, `del KEY` | `row TEXT` or `none`: the row as it was |
//! | `give MAX` | `chunk NUMBER SUB SOURCE DEST LO HI`, and `KEY=HEX` for each row |
//! | `copy NUMBER SUB SOURCE DEST LO HI` | the same of a chunk that was given before, as its answer may be lost |
//! | `load NUMBER SUB SOURCE DEST LO HI KEY=HEX ..` | `loaded`, or `again` |
//! | `hear HEX` | `heard`, of the frame of a delta |
//! | `finish SUB`, `close` | `finished`, `closed NUMBER` |
//! | `board` | `frame HEX`: the frame of its board |
//!
//! A key that it does not hold is answered by `moved PART NUMBER`, `pending PART`, `behind` or
//! `elsewhere PART`. All else that it refuses is answered by `no` and the reason.
#![tactic(auto)]

mod answers;
mod disk;
mod words;

use anyhow::anyhow;
use disk::LogFile;
use squall_course::Course;
use squall_key::{PartId, read_number};
use squall_log::End;
use squall_part::Part;
use squall_plan::Plan;
use squall_store_log::{LoggedStore, Opened};
use std::alloc::{AllocError, Global};
use std::fs::{File, OpenOptions};
use std::io::{Read, Seek, SeekFrom};
use std::sync::Arc;
use std::{env, io};
use words::Line;

/// The bytes of a file.
fn bytes_of(rt: &HostRuntime, name: &str) -> anyhow::Result<Vec<u8>> {
    let mut bytes = Vec::new(rt.alloc());
    let mut file = File::open(rt, name)?;
    file.read_to_end(&mut bytes)?;
    Ok(bytes)
}

fn plan(rt: &HostRuntime, name: &str) -> anyhow::Result<Plan> {
    let text = bytes_of(rt, name)?;
    Plan::read(rt.alloc(), &text).map_err(|_| anyhow!("no plan"))
}

/// The partition as it was when its log was begun.
fn first_part(rt: &HostRuntime, id: &str, old: &str, new: &str) -> anyhow::Result<Part> {
    let Some(number) = read_number(id.as_bytes()) else {
        return Err(anyhow!("no number"));
    };
    let Some(id) = PartId::new(number) else {
        return Err(anyhow!("no partition"));
    };
    let alloc = rt.alloc();
    let (old, new) = (plan(rt, old)?, plan(rt, new)?);
    let Ok(course) = Course::new(alloc, 1, &old, &new) else {
        return Err(anyhow!("no course"));
    };
    let course = Arc::new(alloc, course)?;
    Ok(Part::new(alloc, id, &course)?)
}

/// The file of the log, and its bytes.
fn log_of(rt: &HostRuntime, name: &str) -> anyhow::Result<(File, Vec<u8>)> {
    let mut options = OpenOptions::new();
    let mut file = options.read(true).write(true).create(true).open(rt, name)?;
    let mut bytes = Vec::new(rt.alloc());
    file.read_to_end(&mut bytes)?;
    Ok((file, bytes))
}

/// Opens the store, and cuts off what is torn.
fn open(rt: &HostRuntime, part: Part, name: &str) -> anyhow::Result<(LoggedStore, LogFile)> {
    let (mut file, bytes) = log_of(rt, name)?;
    let opened = match LoggedStore::open(rt.alloc(), part, &bytes) {
        Ok(opened) => opened,
        Err(_stop) => return Err(anyhow!("the log is of another store")),
    };
    let Opened { store, size, end } = opened;
    if end == End::Damaged {
        return Err(anyhow!("the log is damaged after {size} bytes"));
    }
    file.set_len(size as u64)?;
    file.seek(SeekFrom::Start(size as u64))?;
    Ok((store, LogFile::new(file)?))
}

/// Adds the answer to a line.
fn add(
    out: &mut String,
    store: &mut LoggedStore,
    alloc: Global,
    line: &Line,
) -> Result<(), AllocError> {
    match line {
        Line::Get(key) => answers::add_got(out, &store.get(*key, 0)),
        Line::Call(record) => {
            let made = store.call(record, 0);
            answers::add_answer(out, store, &made)
        }
        Line::Copy(chunk) => answers::add_copy(out, store, chunk),
        Line::Board => answers::add_board(out, alloc, store),
    }
}

/// The answer to a line.
fn answer_of(store: &mut LoggedStore, alloc: Global, line: &str) -> Result<String, AllocError> {
    let mut out = String::new(alloc);
    match words::read(alloc, line.as_bytes())? {
        Some(line) => add(&mut out, store, alloc, &line)?,
        None => out.push_str("no Word\n")?,
    }
    Ok(out)
}

/// The answer to a line, once what the line adds to the log is on disk.
fn answer(
    store: &mut LoggedStore,
    disk: &mut LogFile,
    alloc: Global,
    line: &str,
) -> anyhow::Result<String> {
    let out = answer_of(store, alloc, line)?;
    if store.flush(disk, true).is_err() {
        return Err(anyhow!("the log is not written"));
    }
    Ok(out)
}

/// The words that the program was started with.
fn words_given(rt: &HostRuntime) -> io::Result<Vec<String>> {
    let mut words = Vec::new(rt.alloc());
    for word in env::args(rt)? {
        words.push(word)?;
    }
    Ok(words)
}

fn main(rt: HostRuntime) -> anyhow::Result<()> {
    let words = words_given(&rt)?;
    let [_program, log, id, old, new] = words.as_slice() else {
        return Err(anyhow!("squall_store_node LOG PART OLD NEW"));
    };
    let part = first_part(&rt, id.as_str(), old.as_str(), new.as_str())?;
    let (mut store, mut disk) = open(&rt, part, log.as_str())?;
    println!(rt; "open")?;
    for line in rt.lines(rt.alloc()) {
        let text = answer(&mut store, &mut disk, rt.alloc(), line?.as_str())?;
        print!(rt; "{text}")?;
    }
    Ok(())
}
