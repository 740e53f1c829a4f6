//! The end of what a partition gives under a course.

ghost use Rattle.std.specs.Prelude.{◌≡◌};
ghost use Rattle.squall_part.specs.Parts.{course_of_part, closed_by};
ghost use Rattle.squall_part.specs.Giving.{after_close};

use crate::log::place_of;
use crate::part::Part;

impl Part {
    /// Ends what it gives in the newest course that it knows, and answers that course's number. A
    /// repeat changes nothing.
    ///
    /// What it gave stays given, and it loads as before. Under a later course it gives again.
    ///
    /// A host makes the call durable before it passes the number on, as it does with a gift. A
    /// partition that is rebuilt from a log without the call gives again.
    pub fn close(&mut self) -> u32
        ensures number { result ≡ (course_of_part self.old).number }
        ensures value { self.new ≡ after_close self.old }
    {
        let at = self.newest_place();
        let log = &mut self.logs[at];
        log.close();
        log.number()
    }

    /// Whether it gives no more under the number. A number of which it has not heard is not closed.
    pub fn closed(&self, number: u32) -> bool
        ensures { result ≡ closed_by self.now number }
    {
        self.known();
        match place_of(&self.logs, number) {
            Some(at) => self.logs[at].closed,
            None => false,
        }
    }
}
