//! How many sub-plans of a reconfiguration are opened.

/// The sub-plans of the number below the count are opened.
#[derive(Clone, Copy, Debug, PartialEq, Eq)]
pub struct Opening {
    /// The reconfiguration's number, from 1 on.
    pub number: u32,
    /// How many sub-plans are opened, from 1 to 10,000.
    pub count: u32,
}
