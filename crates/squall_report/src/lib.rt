//! Reports of which keys a partition has loaded, which sub-plans are opened, and which plans come
//! next.
//!
//! # Example
//!
//! Partition 3 reports a load in sub-plan 0 of reconfiguration 1 (`span` is of `squall_test_example`).
//!
//! ```rust
//! fn reports_of_a_load(rt: HostRuntime) -> Result<(), Fail> {
//!     let keys = span("2:0", "3:0").ok_or("a span")?;
//!     let load = Report::loaded(1, 0, 3, keys).ok_or("a load")?;
//!     let ReportKind::Loaded { part, span, .. } = load.kind() else {
//!         return Err("no load".into());
//!     };
//!     assert!(rt; part == 3 && span == keys);
//!     assert!(rt; Report::loaded(0, 0, 3, keys).is_none());
//!     assert!(rt; Report::done(1, 0, 10000).is_none());
//!     Ok(())
//! }
//! ```
//!
//! Its tests are in `crates/squall_test_plans/src/report.rt`.
#![tactic(auto)]

mod cell;
mod issue;
pub mod laws;
mod report;

pub use cell::CellId;
pub use issue::Issue;
pub use report::{Report, ReportKind};
