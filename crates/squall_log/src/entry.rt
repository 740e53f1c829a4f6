//! The first entry of bytes.

ghost use Rattle.std.specs.Prelude.{◌≡◌, ◌≢◌, ◌++◌, ◌≤◌, ◌<◌, ℕ, List, length, IfOk, IfErr, IfSome, IfNone};
ghost use Rattle.std.specs.Int.{w32, from_be_bytes};
ghost use Rattle.squall_log.specs.Entries.{payload_limit, head, entry, EndsIn};

use crate::check::is_sum;

/// The most bytes that a payload has.
pub const PAYLOAD_LIMIT: usize = 1_073_741_824;

/// What follows the whole entries of a log.
#[derive(Clone, Copy, Debug, PartialEq, Eq)]
pub enum End {
    /// Nothing.
    Whole,
    /// A part of an entry: fewer bytes than a head has, or fewer than its head says. So a log ends
    /// if it was cut off while an entry was written.
    Torn,
    /// Bytes that are no entry and no part of one: a checksum is wrong.
    Damaged,
}

/// The number of four bytes.
fn number_in(word: &[u8]) -> u32
    requires { length word.now ≡ 4 }
    ensures { result ≡ from_be_bytes w32 word.now }
{
    u32::from_be_bytes([word[0], word[1], word[2], word[3]])
}

/// The length that a head says.
fn size_in(front: &[u8]) -> Option<usize>
    requires { length front.now ≡ 8 }
    ensures some { IfSome result (λ n. (n ≤ payload_limit) × (front.now ≡ head n)) }
    ensures none { IfNone result ((n : ℕ) → n ≤ payload_limit → front.now ≢ head n) }
{
    let (word, sum) = front.split_at(4);
    let size = number_in(word) as usize;
    if size > PAYLOAD_LIMIT {
        return None;
    }
    if !is_sum(sum, word) {
        return None;
    }
    Some(size)
}

/// The payload of an entry after its head, and what follows the entry.
fn payload_in(size: usize, bytes: &[u8]) -> Result<(&[u8], &[u8]), End>
    requires { size ≤ payload_limit }
    ensures short { IfOk result (λ x. length x.0.now ≤ payload_limit) }
    ensures entry { IfOk result (λ x. head size ++ bytes.now ≡ entry x.0.now ++ x.1.now) }
    ensures end { IfErr result (λ end. EndsIn end (head size ++ bytes.now)) }
{
    if bytes.len() < 4 + size {
        return Err(End::Torn);
    }
    let (sum, rest) = bytes.split_at(4);
    let (payload, rest) = rest.split_at(size);
    if !is_sum(sum, payload) {
        return Err(End::Damaged);
    }
    Ok((payload, rest))
}

/// The payload of the first entry, and the bytes after it. The error says how the log ends, if it
/// begins with no entry. Each byte is read once.
pub fn first_entry(bytes: &[u8]) -> Result<(&[u8], &[u8]), End>
    ensures short { IfOk result (λ x. length x.0.now ≤ payload_limit) }
    ensures entry { IfOk result (λ x. bytes.now ≡ entry x.0.now ++ x.1.now) }
    ensures end { IfErr result (λ end. EndsIn end bytes.now) }
{
    if bytes.is_empty() {
        return Err(End::Whole);
    }
    if bytes.len() < 8 {
        return Err(End::Torn);
    }
    let (front, rest) = bytes.split_at(8);
    match size_in(front) {
        Some(size) => payload_in(size, rest),
        None => Err(End::Damaged),
    }
}
