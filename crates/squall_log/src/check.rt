//! Checksums.

ghost use Rattle.std.specs.Prelude.{◌≡◌};
ghost use Rattle.std.specs.Bool.{Decides};
ghost use Rattle.squall_log.specs.Entries.{fnv, sum_of};

/// FNV-1a of 32 bits.
fn fnv(bytes: &[u8]) -> u32
    ensures { result ≡ fnv bytes.now }
{
    bytes.iter().fold(0x811c_9dc5, |hash, byte| {
        (hash ^ u32::from(*byte)).wrapping_mul(0x0100_0193)
    })
}

/// The four bytes of the checksum of bytes.
#[tactic(auto, unfolding(crate::specs::Entries::sum_of))]
pub(crate) fn sum_of(bytes: &[u8]) -> [u8; 4]
    ensures { result ≡ sum_of bytes.now }
{
    fnv(bytes).to_be_bytes()
}

/// Whether the bytes have that checksum.
pub(crate) fn is_sum(sum: &[u8], bytes: &[u8]) -> bool
    ensures { Decides result (sum.now ≡ sum_of bytes.now) }
{
    sum == sum_of(bytes).as_slice()
}
