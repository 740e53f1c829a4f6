//! The commands of plans, of names and of logs, with their help, as `clap` reads them.

ghost use Rattle.std.specs.Prelude.{◌≡◌, IfOk, false};
ghost use Rattle.clap.specs.Words.{app_of, shape_of};
ghost use Rattle.clap.specs.declared.builder.command.Command.TheViews.{out-Command as fields_of};
ghost use Rattle.squall_cli_command.specs.Asking.{of_span, plan_shape, split_shape, diff_shape, key_shape, audit_shape};

use crate::boards::{described, words};
use crate::courses::of_plans;
use crate::parser::file;
use clap::Command;
use std::alloc::{AllocError, Global};

const PLAN: &str = "The keys from FROM on, below TO, go to the partition PART. A bound is written
ROOT:SECOND, as 2:0, and the last one end. If a key is in several spans, the last one decides.
All other keys stay.

Example:
  squall plan old.json 2:0 3:0 7 >new.json
  squall plan old.json 2:0 3:0 7 5:0 end 8 >new.json";

const SPLIT: &str =
    "The partitions share the keys below BELOW, in their order. If BELOW is ROOT:0, as 480:0,
two shares differ by at most one root, and no root is parted. Else they differ by at most one key.
The last partition also has all further keys. PART is a number, as 7, or a run of them, as 1-30. A
partition that is named twice has two shares.

Example:
  squall split 480:0 1-30 >new.json
  squall split 480:0 1-30 40 >new.json";

const DIFF: &str =
    "Each line has FROM TO PART: the keys from FROM on, below TO, go to the partition PART.
These are the words with which squall plan makes NEW of OLD.

Example:
  squall diff old.json new.json >moves.txt
  squall plan old.json $(cat moves.txt) >new.json";

const KEY: &str = "The key of a row is written ROOT:SECOND. A name that begins with two numbers, as
2:7:cart, has the key 2:7. Any other name has that of a hash: of what is between { and }, or else
of all of it.

Example:
  squall key 2:7:cart user:1 {user:1}:cart";

const AUDIT: &str =
    "OLD and NEW are the plans of the first course. Each LOG is what one node wrote of what it did, with
its answers, and of the reports that it received: a partition, the leader or a router. The logs are
accepted exactly if there is a run of all nodes in which each of them did what its log says.

If there is none, the lines that no run has are named, a line for each log that stops.

Example:
  squall audit old.json new.json leader.log part-1.log part-3.log router-1.log";

/// The command of one plan and a span, without what may follow: `plan OLD FROM TO`.
fn of_span<'a>(alloc: Global) -> Result<Command<'a>, AllocError>
    ensures app { IfOk result (λ c. app_of c ≡ of_span) }
    ensures globals { IfOk result (λ c. (fields_of c).has_globals ≡ false) }
{
    described(
        alloc,
        "plan",
        "Writes the plan in which some keys are at other partitions",
        PLAN,
    )
    .arg(file(alloc, "OLD", "The file of the plan, or -"))?
    .arg(file(alloc, "FROM", "The bound from which on keys go"))?
    .arg(file(alloc, "TO", "The bound below which keys go"))
}

/// `plan OLD FROM TO PART [FROM TO PART]..`
pub(crate) fn plan_command<'a>(alloc: Global) -> Result<Command<'a>, AllocError>
    ensures shape { IfOk result (λ c. shape_of c ≡ plan_shape) }
    ensures globals { IfOk result (λ c. (fields_of c).has_globals ≡ false) }
{
    of_span(alloc)?.arg(words(
        alloc,
        "PART",
        "The partition to which they go, and then any number of FROM TO PART",
    ))
}

/// `split BELOW PART..`
pub(crate) fn split_command<'a>(alloc: Global) -> Result<Command<'a>, AllocError>
    ensures shape { IfOk result (λ c. shape_of c ≡ split_shape) }
    ensures globals { IfOk result (λ c. (fields_of c).has_globals ≡ false) }
{
    described(
        alloc,
        "split",
        "Writes the plan in which partitions share keys evenly",
        SPLIT,
    )
    .arg(file(alloc, "BELOW", "The bound below which keys are shared"))?
    .arg(words(
        alloc,
        "PART",
        "The partitions, each a number or a run as 1-30",
    ))
}

/// `diff OLD NEW`
pub(crate) fn diff_command<'a>(alloc: Global) -> Result<Command<'a>, AllocError>
    ensures shape { IfOk result (λ c. shape_of c ≡ diff_shape) }
    ensures globals { IfOk result (λ c. (fields_of c).has_globals ≡ false) }
{
    of_plans(
        alloc,
        "diff",
        "Shows the words with which squall plan makes one plan of another",
        DIFF,
    )
}

/// `key NAME..`
pub(crate) fn key_command<'a>(alloc: Global) -> Result<Command<'a>, AllocError>
    ensures shape { IfOk result (λ c. shape_of c ≡ key_shape) }
    ensures globals { IfOk result (λ c. (fields_of c).has_globals ≡ false) }
{
    described(alloc, "key", "Shows the keys of rows by their names", KEY).arg(words(
        alloc,
        "NAME",
        "The names of the rows",
    ))
}

/// `audit OLD NEW LOG..`
pub(crate) fn audit_command<'a>(alloc: Global) -> Result<Command<'a>, AllocError>
    ensures shape { IfOk result (λ c. shape_of c ≡ audit_shape) }
    ensures globals { IfOk result (λ c. (fields_of c).has_globals ≡ false) }
{
    of_plans(
        alloc,
        "audit",
        "Judges the logs of nodes: whether a run has them",
        AUDIT,
    )?
    .arg(words(
        alloc,
        "LOG",
        "The files of logs, of each node at most one, or -",
    ))
}
