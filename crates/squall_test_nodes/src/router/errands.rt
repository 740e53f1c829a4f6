//! What a caller of errands learns.

ghost use Rattle.std.specs.Prelude.{◌≡◌, IfOk};
ghost use Rattle.squall_errand.specs.Errands.{answers_of};

use squall_key::PartId;
use squall_router::{Errand, Next, Reply};
use squall_test_example::holds;
use std::alloc::{AllocError, Global};
use std::process::Abort;

/// The answers to the replies, one after the other.
fn answers(alloc: Global, errand: &mut Errand, replies: &[Reply]) -> Result<Vec<Next>, AllocError>
    ensures { IfOk result (λ answers. answers.items ≡ answers_of errand.old replies.now) }
{
    let mut answers = Vec::new(alloc);
    for reply in replies {
        answers.push(errand.heed(*reply))?;
    }
    Ok(answers)
}

/// The errand has these answers to the replies.
fn look_at_answers(
    rt: &impl Abort,
    alloc: Global,
    errand: &mut Errand,
    replies: &[Reply],
    wanted: &[Next],
) {
    let answers = answers(alloc, errand, replies).expect(rt, "memory");
    holds!(rt; answers.as_slice() == wanted);
}

#[test]
fn errands_answer(rt: HostRuntime) {
    let source = PartId::new(1).expect(&rt, "a partition");
    let dest = PartId::new(3).expect(&rt, "a partition");
    let replies = [
        Reply::Moved { dest, number: 2 },
        Reply::Pending { source },
        Reply::Elsewhere { dest: source },
        Reply::Held,
    ];
    let wanted = [Next::Ask(dest), Next::Again(dest), Next::Lost, Next::Lost];
    look_at_answers(&rt, rt.alloc(), &mut Errand::at(source), &replies, &wanted);
}
