//! Devices that keep a log.

ghost use Rattle.std.specs.Prelude.{◌≡◌};

use squall_cli_device::{DeviceFault, Sink};

/// A sink that is asked to keep what it took.
///
/// No contract can say that a disk keeps it: that is the disk's promise, and that of its driver.
pub trait Disk: Sink {
    /// Makes what was taken durable. The call takes no byte.
    fn sync(&mut self) -> Result<(), DeviceFault>
        ensures { Self.state self.new ≡ Self.state self.old };
}
