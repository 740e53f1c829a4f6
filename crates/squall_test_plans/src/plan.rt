//! Tests of plans. What texts are no plans, and why, and that ranges are joined, the cases of the built program show; that
//! a refused allocation answers so, the tests in C.

mod clients;
mod example;

use squall_key::{Key, PartId};
use squall_plan::Plan;
use squall_test_example::{NEW, holds, plan};
use std::process::Abort;

fn key(rt: &impl Abort, text: &str) -> Key {
    Key::read(text).expect(rt, "a key")
}

/// Looks at the owners of keys by the new plan.
fn look_at_owners(rt: &impl Abort, new: &Plan) {
    let owners = [
        ("0:0", 1),
        ("1:4294967295", 1),
        ("2:0", 3),
        ("4:7", 2),
        ("5:0", 3),
        ("6:0", 4),
    ];
    for (text, number) in owners {
        let key = key(rt, text);
        holds!(rt; new.owner(key).get() == number);
        holds!(rt; new.names(clients::named_owner(new, key)));
    }
    holds!(rt; clients::count(new) == 5);
    let other = PartId::new(5).expect(rt, "a partition");
    holds!(rt; !new.names(other));
}

#[test]
fn owners(rt: HostRuntime) {
    let new = plan(rt.alloc(), NEW).expect(&rt, "memory");
    look_at_owners(&rt, &new);
}
