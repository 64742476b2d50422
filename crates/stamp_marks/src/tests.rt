//! Each call once.
use crate::{Marks, copy_of, prefix_of, whole_of, with_event};
use std::test::Fail;

/// Two events of one actor: the first leaves 10, the second 30.
#[test]
fn two_events(rt: HostRuntime) -> Result<(), Fail> {
    let marks: Marks<u64, u64, u64> = Marks::new(rt.alloc())?;
    let list = &marks.events;
    let booking = list.book(&rt, &1)?;
    let place = booking.place();
    let first = list.fix(booking, with_event(None, &1, &10));
    let Some(earlier) = &first else {
        assert!(rt; false, "the mark of the first event has a value");
        return Ok(());
    };
    assert!(rt; list.is_from(earlier, &place));
    let booking = list.book(&rt, &2)?;
    let history = with_event(Some(list.value(earlier)), &2, &30);
    let second = list.fix(booking, history);
    assert!(rt; second.is_some());
    assert!(rt; list.is_same(&first, &copy_of(&first)));
    assert!(rt; list.is_same(&None, &None));
    assert!(rt; !list.is_same(&first, &second));
    assert!(rt; !list.is_same(&None, &second));
    if let Some(later) = &second {
        assert!(rt; !list.is_from(later, &place));
    }
    Ok(())
}

/// What a pass has seen before an item and with it.
#[test]
fn two_prefixes(rt: HostRuntime) -> Result<(), Fail> {
    let marks: Marks<u64, u64, u64> = Marks::new(rt.alloc())?;
    let items = Vec::from_slice(rt.alloc(), &[5, 6])?;
    let list = &marks.prefixes;
    let seen = list.fix(list.book(&rt, &0)?, whole_of(&items));
    let more = list.fix(list.book(&rt, &0)?, prefix_of(&items, Some(&7)));
    assert!(rt; seen.is_some() && more.is_some());
    assert!(rt; !list.is_same(&seen, &more));
    Ok(())
}
