//! A log of calls, made anew.

ghost use Rattle.std.specs.Prelude.{IfErr, OnOk};
ghost use Rattle.squall_replay.specs.Calls.{Leads, StopsAt};

use crate::call::Call;
use crate::fault::CallFault;
use squall_part::Part;

/// Makes the calls of a log, one after the other. It ends at the first call that the partition
/// refuses, or at which an allocation fails, and the error is that of this call. The calls before it
/// were made then.
///
/// By [`crate::laws::one_partition`] all partitions that are rebuilt so are one. By
/// [`crate::laws::part_replay`] it is the partition that made these calls, among others that it
/// refused.
pub fn replay(part: &mut Part, calls: &[Call]) -> Result<(), CallFault>
    ensures ok { OnOk result (Leads part.old calls.now part.new) }
    ensures err { IfErr result (λ fault. StopsAt part.old calls.now fault part.new) }
{
    for call in calls {
        call.make(part)?;
        // The proof learns that a partition is left.
        part.known();
    }
    Ok(())
}
