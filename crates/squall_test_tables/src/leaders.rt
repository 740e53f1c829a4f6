//! Leaders behind handles between plans whose moves were worked out by hand.

mod replay;
