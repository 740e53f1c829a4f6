//! What a test asserts.

use std::process::Abort;

/// Ends the test with the text if the condition does not hold.
pub(crate) fn holds(rt: &impl Abort, condition: bool, text: &str) {
    assert!(rt; condition, "{text}");
}
