//! Files with logs of the example plans, and audits of them.

use squall_cli_audit::{LogFile, answer_audit};
use squall_cli_lines::Ended;
use squall_test_example::{NEW, OLD, plan};
use std::alloc::Global;

/// The leader opens sub-plan 0, and hears that it is done.
pub(crate) const LEADER: (&str, &str) = (
    "l",
    "node leader\nopen 0\nheard done 1 0 3\nheard done 1 0 4\n",
);

/// Partition 1 gives its keys in two chunks.
pub(crate) const FIRST: (&str, &str) = (
    "p1",
    concat!(
        "node part 1\nheard opened 1 0\nserve 2:5 after 0 held\ngive 2:0 2:500 to 3 course 1 sub 0\n",
        "serve 2:5 after 0 moved 3 1\ngive 2:500 3:0 to 3 course 1 sub 0\n",
    ),
);

/// Partition 3 loads these, one of them twice, and gives its own.
pub(crate) const THIRD: (&str, &str) = (
    "p3",
    concat!(
        "node part 3\r\nheard opened 1 0\r\nserve 2:5 after 1 pending 1\nload 2:0 2:500 from 1 course 1 sub 0 new\n",
        "serve 2:5 after 1 held\ngive 6:0 9:0 to 4 course 1 sub 0\nload 2:500 3:0 from 1 course 1 sub 0 new\n",
        "\n # The first chunk came twice.\nload 2:0 2:500 from 1 course 1 sub 0 again\ndone 1 0",
    ),
);

/// Partition 4 loads them.
pub(crate) const FOURTH: (&str, &str) = (
    "p4",
    "node part 4\nheard opened 1 0\nload 6:0 9:0 from 3 course 1 sub 0 new\ndone 1 0\n",
);

/// A router hears of a load.
pub(crate) const ROUTER: (&str, &str) = (
    "r0",
    "node router 0\nroute 2:5 1\nheard loaded 1 0 3 2:0 2:500\nroute 2:5 3\nheard done 1 0 3\n",
);

/// The file of that name with that text. None if an allocation fails, as with all that follows.
fn file(alloc: Global, name: &str, text: &str) -> Option<LogFile> {
    let mut owned = String::new(alloc);
    owned.push_str(name).ok()?;
    Some(LogFile::new(owned, Vec::from_slice(alloc, text.as_bytes()).ok()?))
}

/// The files of these names and texts.
fn files(alloc: Global, logs: &[(&str, &str)]) -> Option<Vec<LogFile>> {
    let mut files = Vec::new(alloc);
    for log in logs {
        files.push(file(alloc, log.0, log.1)?).ok()?;
    }
    Some(files)
}

/// How the audit of the files ended, and what it shows.
fn audit(alloc: Global, files: &[LogFile], out: &mut String) -> Option<Ended> {
    let old = plan(alloc, OLD)?;
    let new = plan(alloc, NEW)?;
    answer_audit(alloc, &old, &new, files, out).ok()
}

/// Whether the audit of the files so ends, and shows that text.
pub(crate) fn shows(
    alloc: Global,
    logs: &[(&str, &str)],
    ended: Ended,
    wanted: &str,
) -> Option<bool> {
    let files = files(alloc, logs)?;
    let mut out = String::new(alloc);
    let how = audit(alloc, &files, &mut out)?;
    Some(how == ended && out.as_str() == wanted)
}

/// Whether the audit of the one file is refused, and shows that text.
pub(crate) fn refuses(alloc: Global, text: &str, wanted: &str) -> Option<bool> {
    shows(alloc, &[("x", text)], Ended::Refused, wanted)
}
