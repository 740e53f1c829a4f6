//! Which program this is: its version, and with which digits the checksum of its sources begins.
//! `tools/releasing/sources --stamp` writes this file, which the checksum leaves out.

/// The line that `squall --version` shows.
pub(crate) const TITLE: &str = "squall 0.3.0 (911e5a00)\n";
