//! Texts are published, and read whole and in parts.
use crate::Shelf;
use std::test::Fail;

#[test]
fn two_texts(rt: HostRuntime) -> Result<(), Fail> {
    let shelf = Shelf::new(rt.alloc())?;
    let first = shelf.publish(&rt, b"abcdef".to_vec(rt.alloc())?)?;
    let second = shelf.publish(&rt, b"xyz".to_vec(rt.alloc())?)?;
    assert_eq!(rt; first.len(), 6);
    assert_eq!(rt; second.len(), 3);
    let mut whole = [0; 6];
    shelf.read_into(&first, 0, &mut whole);
    assert_eq!(rt; whole, *b"abcdef");
    let mut part = [0; 2];
    shelf.read_into(&first, 3, &mut part);
    assert_eq!(rt; part, *b"de");
    shelf.read_into(&second, 1, &mut part);
    assert_eq!(rt; part, *b"yz");
    let mut nothing = [0; 0];
    shelf.read_into(&second, 3, &mut nothing);
    Ok(())
}

#[test]
fn text_of_no_bytes(rt: HostRuntime) -> Result<(), Fail> {
    let shelf = Shelf::new(rt.alloc())?;
    let place = shelf.publish(&rt, Vec::new(rt.alloc()))?;
    assert_eq!(rt; place.len(), 0);
    shelf.read_into(&place, 0, &mut [0; 0]);
    Ok(())
}
