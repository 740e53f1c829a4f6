//! Reads values from the tape of a text: one flat list of nodes, which borrows the text. No tree of
//! values is made.
//!
//! What a text means is `serde_json`'s definition `read`. A tape differs from it in two ways: it
//! nests one level deeper, and it holds numbers of any size. `read_tape` refuses both.

ghost use Rattle.std.specs.Prelude.{◌≡◌, ◌≢◌, ◌==◌, ◌<◌, ◌≤◌, ◌+◌, ◌^◌, false, true, None, Some, IfErr, IfOk, IfSome, IsTrue, OnSome};
ghost use Rattle.std.specs.Prelude.{is_some, length, map, option_map, slice_index};
ghost use Rattle.std.specs.Option.{option_and_then};
ghost use Rattle.json.specs.Tape.{node_token};
ghost use Rattle.serde_json.specs.Data.{Data, Items as DataItems};
ghost use Rattle.serde_json.specs.Find.{get, as_array, as_str, as_u64};
ghost use Rattle.serde_json.specs.Read.{number_of, number_from, float_of, read};
ghost use Rattle.squall_plan.specs.declared.fault.PlanFault.TheVariants.{NoMemory, Json};
ghost use Rattle.squall_plan.specs.Form.{whole_of};
ghost use Rattle.squall_plan.specs.Shown.{Shows, ShowsItems, Finds, FindsItems, Steps, room_after, is_readable};

use crate::fault::PlanFault;
use fast_float::Numeral;
use json::{Element, Error, Items, Node, Scratch, Tape};
use std::alloc::Global;

// ---- the text of a number

/// Whether the text of a number begins with a minus.
fn has_minus(bytes: &[u8]) -> bool
    ensures value { result ≡ (slice_index bytes.now 0 == 45) }
    ensures len { IsTrue result → 0 < length bytes.now }
{
    !bytes.is_empty() && bytes[0] == b'-'
}

/// Whether the float that is nearest to the number is finite.
fn has_float(negative: bool, numeral: &Numeral<'_>) -> bool
    ensures { result ≡ is_some (float_of negative numeral.now) }
{
    numeral.to_float::<f64>(negative).is_finite()
}

/// Whether a number without a minus is in range.
fn is_unsigned(numeral: &Numeral<'_>) -> bool
    ensures { result ≡ is_some (number_from false numeral.now) }
{
    match numeral.to_u64() {
        Some(_) => true,
        None => has_float(false, numeral),
    }
}

/// Whether a number after a minus is in range.
fn is_negative(numeral: &Numeral<'_>) -> bool
    ensures { result ≡ is_some (number_from true numeral.now) }
{
    if let Some(number) = numeral.to_i64(true) {
        if number < 0 {
            return true;
        }
    }
    has_float(true, numeral)
}

/// Whether the number is in range: an integer of 64 bits, or one whose nearest float is finite.
fn is_in_range(text: &str) -> bool
    ensures { result ≡ is_some (number_of text.now) }
{
    let bytes = text.as_bytes();
    if has_minus(bytes) {
        is_negative(&Numeral::scan(&bytes[1..]))
    } else {
        is_unsigned(&Numeral::scan(bytes))
    }
}

/// The whole number from 0 to 2^64 - 1 that the text is, if it is one.
fn whole_in(text: &str) -> Option<u64>
    ensures { result ≡ option_and_then as_u64 (number_of text.now) }
{
    let bytes = text.as_bytes();
    if has_minus(bytes) {
        None
    } else {
        Numeral::scan(bytes).to_u64()
    }
}

// ---- a value

/// The whole number from 0 to 2^64 - 1 that the value is, if it is one.
pub(crate) fn read_whole(value: &Element<'_, '_>) -> Option<u64>
    ensures { (d : Data) → Shows value.now d → result ≡ whole_of d }
{
    whole_in(value.as_number()?)
}

/// The text that the value is, if it is one.
pub(crate) fn read_string<'a>(value: &Element<'_, 'a>) -> Option<&'a str>
    ensures { (d : Data) → Shows value.now d → option_map (λ s. s.now) result ≡ as_str d }
{
    value.as_str()
}

/// The member of that name, if the value is an object that has one. The last one of the name counts.
pub(crate) fn read_member<'t, 'a>(value: &Element<'t, 'a>, name: &str) -> Option<Element<'t, 'a>>
    ensures { (d : Data) → Shows value.now d → Finds result (get name.now d) }
{
    value.get(name)
}

/// The items of the value, if it is an array.
pub(crate) fn read_items<'t, 'a>(value: &Element<'t, 'a>) -> Option<Items<'t, 'a>>
    ensures { (d : Data) → Shows value.now d → FindsItems result (as_array d) }
{
    value.items()
}

/// The first of the items, which goes, or none if there are none.
pub(crate) fn next_item<'t, 'a>(items: &mut Items<'t, 'a>) -> Option<Element<'t, 'a>>
    ensures value { (ds : DataItems) → ShowsItems items.old ds → Steps ds result items.new }
    ensures shorter { OnSome result (length items.new < length items.old) }
{
    items.next()
}

// ---- the whole

/// How many levels may still be opened after the node. None if it opens one too many, or is a
/// number out of range.
fn room_after(room: usize, node: &Node<'_>) -> Option<usize>
    requires { room < 2 ^ 63 }
    ensures value { result ≡ room_after room (node_token node.now) }
    ensures small { IfSome result (λ left. left ≤ room + 1) }
{
    match node {
        Node::Object(_) | Node::Array(_) => {
            if room == 0 {
                return None;
            }
            Some(room - 1)
        }
        Node::EndObject | Node::EndArray => Some(room + 1),
        Node::Number(text) => { if is_in_range(text) { Some(room) } else { None } }
        _ => Some(room),
    }
}

/// Whether the nodes open at most 127 levels, and each number is in range.
fn are_readable(nodes: &[Node<'_>]) -> bool
    ensures { result ≡ is_readable 127 (map node_token nodes.now) }
{
    let mut room = 127;
    for node in nodes {
        match room_after(room, node) {
            Some(left) => room = left,
            None => return false,
        }
    }
    true
}

/// The tape of the text, if the text is JSON as `serde_json` reads it. It is `NoMemory` also for a
/// text that is longer than a tape can be of.
pub(crate) fn read_tape<'a>(
    alloc: Global,
    text: &'a str,
    scratch: &'a mut Scratch,
) -> Result<Tape<'a>, PlanFault>
    ensures shown { IfOk result (λ tape. (d : Data) × (read text.now ≡ Some d) × Shows tape d) }
    ensures fault { IfErr result (λ e. e ≢ NoMemory → (e ≡ Json) × (read text.now ≡ None)) }
{
    let tape = match Tape::parse(text, scratch, Vec::new(alloc)) {
        Ok(tape) => tape,
        Err(Error::Invalid) => return Err(PlanFault::Json),
        // An allocation failed, or the text is above 4 GiB less 256 bytes.
        Err(_) => return Err(PlanFault::NoMemory),
    };
    if are_readable(tape.nodes()) {
        Ok(tape)
    } else {
        Err(PlanFault::Json)
    }
}
