//! A move.

use squall_key::{Bound, Ends, PartId};
use squall_span::Span;

/// The keys of `span` go from `source` to `dest` in the sub-plan `sub`. Contracts see `span` as
/// its two bounds, `lo` and `hi`, and the partitions as their numbers.
#[derive(Clone, Copy, Debug, PartialEq, Eq)]
pub struct Move {
    pub span: Span,
    pub source: PartId,
    pub dest: PartId,
    pub sub: u32,
}

/// A move ends where its span does.
impl Ends for Move {
    ghost end = { λ m. m.span.hi };

    fn end(&self) -> Bound {
        self.span.hi()
    }
}
