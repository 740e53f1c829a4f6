//! Where messages go.

use squall_cli_device::Sink;

/// A sink for messages, which knows why the system refused a call.
pub trait Console: Sink {
    /// Why the last call of the system that failed did so. No contract can say what a system gives.
    fn reason(&self) -> &'static str;
}
