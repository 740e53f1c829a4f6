//! The commands between two boards, with their help, as `clap` reads them.

ghost use Rattle.std.specs.Prelude.{◌≡◌, IfOk, false};
ghost use Rattle.clap.specs.Words.{shape_of};
ghost use Rattle.clap.specs.declared.builder.command.Command.TheViews.{out-Command as fields_of};
ghost use Rattle.squall_cli_command.specs.Asking.{beyond_shape, digest_shape, repair_shape};

use crate::boards::{described, flag};
use crate::parser::file;
use clap::Command;
use std::alloc::{AllocError, Global};

const BEYOND: &str = "With --quiet the status is 0 if B tells all that A tells, and 1 if not.

Example:
  squall beyond a.bin b.bin >missing.bin";

const DIGEST: &str = "The digest is much shorter than the board. See: squall help repair

Example:
  squall digest b.bin >b.digest";

const REPAIR: &str = "The digest is that of another board, which lacks what is written.

Example:
  squall repair a.bin b.digest >missing.bin";

/// `beyond A B`
pub(crate) fn beyond_command<'a>(alloc: Global) -> Result<Command<'a>, AllocError>
    ensures shape { IfOk result (λ c. shape_of c ≡ beyond_shape) }
    ensures globals { IfOk result (λ c. (fields_of c).has_globals ≡ false) }
{
    described(
        alloc,
        "beyond",
        "Writes the frames of what one board tells and another does not",
        BEYOND,
    )
    .arg(file(alloc, "A", "The file of frames that tells more, or -"))?
    .arg(file(
        alloc,
        "B",
        "The file of frames that may lack something, or -",
    ))?
    .arg(flag(alloc, "quiet", "Writes nothing: the status says it"))
}

/// `digest A`
pub(crate) fn digest_command<'a>(alloc: Global) -> Result<Command<'a>, AllocError>
    ensures shape { IfOk result (λ c. shape_of c ≡ digest_shape) }
    ensures globals { IfOk result (λ c. (fields_of c).has_globals ≡ false) }
{
    described(
        alloc,
        "digest",
        "Writes the frame of a board's digest",
        DIGEST,
    )
    .arg(file(alloc, "A", "The file of frames, or -"))
}

/// `repair A DIGEST`
pub(crate) fn repair_command<'a>(alloc: Global) -> Result<Command<'a>, AllocError>
    ensures shape { IfOk result (λ c. shape_of c ≡ repair_shape) }
    ensures globals { IfOk result (λ c. (fields_of c).has_globals ≡ false) }
{
    described(
        alloc,
        "repair",
        "Writes the frames of what a board has that a digest does not show",
        REPAIR,
    )
    .arg(file(alloc, "A", "The file of frames, or -"))?
    .arg(file(alloc, "DIGEST", "The file of the digest's frame, or -"))
}
