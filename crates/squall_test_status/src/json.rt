//! A refusal as JSON. What else is answered as JSON the cases of the built program show.

use squall_cli_json::refusal_json;
use std::alloc::AllocError;

/// A name with what JSON escapes.
const REFUSED: &str = "{\"fault\":\"Short\",\"refused\":\"a \\\"b\\\"\\n\"}\n";

/// Whether the text is as wanted, or memory is short.
fn is_text(text: Result<String, AllocError>, wanted: &str) -> bool {
    match text {
        Ok(text) => text.as_str() == wanted,
        Err(_) => true,
    }
}

#[test]
fn tolerant_refusal(rt: HostRuntime) {
    assert!(rt; is_text(refusal_json(rt.alloc(), "a \"b\"\n", "Short"), REFUSED));
}
