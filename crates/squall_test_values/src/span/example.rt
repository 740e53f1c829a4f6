//! The example of the crate's first page.

use squall_key::{Bound, Key};
use squall_span::{Span, SpanSet};
use std::test::Fail;

#[test]
fn set_of_two_spans(rt: HostRuntime) -> Result<(), Fail> {
    let two = Bound::new(2, 0).expect(&rt, "a bound");
    let five = Bound::new(5, 0).expect(&rt, "a bound");
    let nine = Bound::new(9, 0).expect(&rt, "a bound");
    let mut set = SpanSet::empty(rt.alloc());
    set.insert(Span::new(two, five).expect(&rt, "a span"))?;
    set.insert(Span::new(nine, Bound::TOP).expect(&rt, "a span"))?;
    assert!(rt; set.has(Key::new(2, 0).expect(&rt, "a key")));
    assert!(rt; !set.has(Key::new(5, 0).expect(&rt, "a key")));
    set.insert(Span::new(five, nine).expect(&rt, "a span"))?;
    assert!(rt; set.len() == 1);
    Ok(())
}
