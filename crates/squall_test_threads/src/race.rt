// A race by the lines of its file. What others show, and which lines are bad, the cases of the built program say.
use squall_cli_lines::Ended;
use squall_cli_race::answer_race;
use std::alloc::AllocError;
use std::test::Fail;

/// Both plans, a line each.
const PLANS: &str = concat!(
    r#"old {"plan":[{"part":1,"from":[0,0],"to":[3,0]},{"part":2,"from":[3,0],"to":[5,0]},"#,
    r#"{"part":3,"from":[5,0],"to":[9,0]},{"part":4,"from":[9,0],"to":"end"}]}"#,
    "\n",
    r#"new {"plan":[{"part":1,"from":[0,0],"to":[2,0]},{"part":2,"from":[3,0],"to":[5,0]},"#,
    r#"{"part":3,"from":[2,0],"to":[3,0]},{"part":3,"from":[5,0],"to":[6,0]},"#,
    r#"{"part":4,"from":[6,0],"to":"end"}]}"#,
    "\n",
);

/// What follows the plans.
const LINES: &str =
    "senders 3\ncapacity 1\n0 loaded 1 0 3 2:0 2:7\n1 loaded 1 0 3 2:7 3:0\n2 done 1 0 4\n2 done 1 0 4\nkey 2:0\nkey 6:0\n";

/// What is shown: the board and routes.
const SHOWN: &str = "cell 1 0 3 open [2:0,3:0)\ncell 1 0 4 done\nroute 2:0 3\nroute 6:0 4\n";

/// Whether the call showed the wanted text, was refused a thread, whose start takes memory of the C
/// library's, or had no memory.
fn shown_or_refused(ended: Result<Ended, AllocError>, out: &str, wanted: &str) -> bool {
    match ended {
        Ok(Ended::Fine) => out == wanted,
        Ok(_) => out == "refused NoThread\n",
        Err(AllocError) => true,
    }
}

#[test]
fn tolerant_race_file(rt: HostRuntime) -> Result<(), Fail> {
    let mut whole = String::new(rt.alloc());
    if whole.push_str(PLANS).is_err() || whole.push_str(LINES).is_err() {
        return Ok(());
    }
    let mut out = String::new(rt.alloc());
    let ended = answer_race(&rt, rt.alloc(), whole.as_bytes(), &mut out);
    assert!(rt; shown_or_refused(ended, out.as_str(), SHOWN));
    Ok(())
}
