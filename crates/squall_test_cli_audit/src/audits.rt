//! What audits show: of a clean run, of logs in which something is wrong, and of texts that are no logs.

use crate::logs::{FIRST, FOURTH, LEADER, ROUTER, THIRD, refuses, shows};
use squall_cli_lines::Ended;
use squall_test_example::holds;
use std::alloc::Global;

#[test]
fn a_clean_run_is_accepted(rt: HostRuntime) {
    let logs = [ROUTER, FOURTH, THIRD, FIRST, LEADER];
    holds!(&rt; shows(rt.alloc(), &logs, Ended::Fine, "accepted 23 lines of 5 logs\n") == Some(true));
    holds!(&rt; shows(rt.alloc(), &[], Ended::Fine, "accepted 0 lines of 0 logs\n") == Some(true));
}

/// Partition 3 was started again with older data, and no longer knows what it gave.
const OLDER: (&str, &str) = (
    "p3",
    "# Lost.\nnode part 3\nheard opened 1 0\nload 2:0 2:500 from 1 course 1 sub 0 new\n",
);

#[test]
fn each_log_that_stops_is_named(rt: HostRuntime) {
    let logs = [LEADER, FIRST, OLDER, FOURTH, ROUTER];
    let wanted = "refused l 3 NotReported\nrefused p4 3 NotGiven\nrefused r0 5 NotReported\n";
    holds!(&rt; shows(rt.alloc(), &logs, Ended::Refused, wanted) == Some(true));
}

/// A load says of its keys that they were new, and the same load once more.
const TWICE: (&str, &str) = (
    "p4",
    "node part 4\nheard opened 1 0\nload 6:0 9:0 from 3 course 1 sub 0 new\nload 6:0 9:0 from 3 course 1 sub 0 new\n",
);

#[test]
fn a_second_load_is_not_new(rt: HostRuntime) {
    let logs = [LEADER, FIRST, THIRD, TWICE];
    holds!(&rt; shows(rt.alloc(), &logs, Ended::Refused, "refused l 4 NotReported\nrefused p4 4 Answer\n") == Some(true));
}

/// Partitions give no more, and the leader begins course 2 from the old plan.
const BEGINS: &str = concat!(
    "node leader\nbegin-from 2 4 ",
    r#"{"plan":[{"part":1,"from":[0,0],"to":[3,0]},{"part":2,"from":[3,0],"to":[5,0]},"#,
    r#"{"part":3,"from":[5,0],"to":[9,0]},{"part":4,"from":[9,0],"to":"end"}]} "#,
    r#"{"plan":[{"part":1,"from":[0,0],"to":[3,0]},{"part":2,"from":[3,0],"to":"end"}]}"#,
    "\nopen 0\n",
);

/// What the router hears of that.
const ISSUED: &str = concat!(
    "node router 999\nheard opened 2 0\nheard issued 2 ",
    r#"{"plan":[{"part":1,"from":[0,0],"to":[3,0]},{"part":2,"from":[3,0],"to":[5,0]},"#,
    r#"{"part":3,"from":[5,0],"to":[9,0]},{"part":4,"from":[9,0],"to":"end"}]} "#,
    r#"{"plan":[{"part":1,"from":[0,0],"to":[3,0]},{"part":2,"from":[3,0],"to":"end"}]}"#,
    "\n",
);

/// What partition 1 and 3 did.
const CLOSED: (&str, &str) = (
    "p1",
    "node part 1\nclose 1\nserve 5:0 after 0 elsewhere 3\n",
);

const SHUT: (&str, &str) = ("p3", "node part 3\nserve 0:0 after 2 behind\nclose 1\n");

#[test]
fn a_course_is_begun_early(rt: HostRuntime) {
    let logs = [("l", BEGINS), CLOSED, SHUT, ("r", ISSUED)];
    holds!(&rt; shows(rt.alloc(), &logs, Ended::Fine, "accepted 8 lines of 4 logs\n") == Some(true));
    let open = [("l", BEGINS), CLOSED, ("r", ISSUED)];
    holds!(&rt; shows(rt.alloc(), &open, Ended::Refused, "refused l 2 Running\nrefused r 2 NotReported\n") == Some(true));
}

#[test]
fn two_logs_and_strays_are_named(rt: HostRuntime) {
    let twins = [FIRST, LEADER, ROUTER, ("again", LEADER.1)];
    holds!(&rt; shows(rt.alloc(), &twins, Ended::Refused, "refused again TwoLogs\n") == Some(true));
    holds!(&rt; refuses(rt.alloc(), "node router 1000", "refused x TooManyRouters\n") == Some(true));
}

/// Texts that are no logs, and the number of the first bad line of each.
const BAD: [(&str, &str); 20] = [
    ("", "bad x 1\n"),
    ("\n\n# node leader", "bad x 1\n"),
    ("\nnode part 10000", "bad x 2\n"),
    ("node leader 0", "bad x 1\n"),
    ("node part", "bad x 1\n"),
    ("open 0\n", "bad x 1\n"),
    ("node leader\nopen 1 0", "bad x 2\n"),
    ("node leader\nopen -1", "bad x 2\n"),
    ("node leader\nbegin 2 4 {}", "bad x 2\n"),
    ("node leader\nroute 2:0 1", "bad x 2\n"),
    ("node part 1\n\nclose 1\nheard\n", "bad x 4\n"),
    ("node part 1\nclose 1 1", "bad x 2\n"),
    ("node part 1\ndone 0 0", "bad x 2\n"),
    ("node part 1\ngive 3:0 2:0 to 3 course 1 sub 0", "bad x 2\n"),
    (
        "node part 1\ngive 2:0 3:0 from 3 course 1 sub 0",
        "bad x 2\n",
    ),
    (
        "node part 1\nload 2:0 3:0 from 3 course 1 sub 0",
        "bad x 2\n",
    ),
    (
        "node part 1\nload 2:0 3:0 from 3 course 1 sub 0 old",
        "bad x 2\n",
    ),
    ("node part 1\nserve end after 0 held", "bad x 2\n"),
    ("node part 1\nserve 2:0 after 0 held 3", "bad x 2\n"),
    ("node router 0\nheard issued 1 {} {}", "bad x 2\n"),
];

/// Whether each text is refused for its line.
fn all_bad(alloc: Global) -> Option<bool> {
    for bad in &BAD {
        if !refuses(alloc, bad.0, bad.1)? {
            return Some(false);
        }
    }
    Some(true)
}

#[test]
fn the_first_bad_line_is_named(rt: HostRuntime) {
    holds!(&rt; all_bad(rt.alloc()) == Some(true));
}
