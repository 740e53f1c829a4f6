//! What ends a watch.

/// What ended a watch that nothing stopped.
#[derive(Clone, Copy, Debug, PartialEq, Eq)]
pub enum WatchEnd {
    /// The input ended. Each frame was answered.
    Fine,
    /// The input was refused. Each frame before that was answered.
    Refused,
    /// Each move of the newest course is complete. The frame that says so was answered last.
    Complete,
}

/// Whether a watch goes on after a frame.
#[derive(Clone, Copy, Debug, PartialEq, Eq)]
pub(crate) enum Next {
    /// The next frame is to come.
    On,
    /// The watch has ended.
    End(WatchEnd),
}
