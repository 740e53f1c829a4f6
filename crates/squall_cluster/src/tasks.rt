//! What a race does.

ghost use Rattle.std.specs.Prelude.{◌≡◌};
ghost use Rattle.squall_cluster.specs.Race.{sizes_of};

use crate::cluster::Sizes;
use squall_key::Key;
use squall_report::Report;

/// What the senders and the readers of a race do, and how much room its inbox has.
#[derive(Clone, Copy)]
pub struct Tasks<'a> {
    /// The reports that each sender posts, in order: a list for each of 1 to 64 senders.
    pub lists: &'a [Vec<Report>],
    /// The keys that each reader routes, in order.
    pub keys: &'a [Key],
    /// How many readers there are: at most 64.
    pub readers: usize,
    /// For how many letters the inbox has room: 1 to 65536.
    pub capacity: usize,
}

impl<'a> Tasks<'a> {
    /// The sizes of the cluster that does this.
    pub(crate) fn sizes(&self) -> Sizes
        ensures { result ≡ sizes_of self.now }
    {
        Sizes {
            senders: self.lists.len(),
            readers: self.readers,
            capacity: self.capacity,
        }
    }
}
