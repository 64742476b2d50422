//! What no clause says: that copies succeed, and the sizes of one cell of each kind.
use bytes::Bytes;
use memtable::{Cell, Key, Place, entry_size, is_large};
use std::alloc::Global;
use std::test::Fail;
use wire::ExtentId;

fn inline(alloc: Global, count: usize) -> Result<Cell, Fail> {
    Ok(Cell::Inline(Bytes::from_vec(vec![in alloc; b'x'; count]?)?))
}

// The cells are let go by calls: at the end of its block a cell is let go part by part, and each part costs the proof.
fn size_of_copy(cell: Cell) -> Result<u64, Fail> {
    let copied = cell.copy();
    drop(cell);
    let copy = copied?;
    let size = copy.size();
    drop(copy);
    Ok(size)
}

#[test]
fn cells_have_their_sizes(rt: HostRuntime) -> Result<(), Fail> {
    let place = Place {
        extent: ExtentId(3),
        offset: 4_096,
        length: 5_000,
    };
    assert!(rt; size_of_copy(Cell::Deleted)? == 1);
    assert!(rt; size_of_copy(Cell::Placed(place))? == 17);
    assert!(rt; size_of_copy(inline(rt.alloc(), 4_096)?)? == 4_101);
    Ok(())
}

#[test]
fn an_entry_has_its_key_too_and_large_is_more_than_4096(rt: HostRuntime) {
    assert!(rt; entry_size(b"abc", &Cell::Deleted) == 6);
    assert!(rt; !is_large(&[0; 4_096]));
    assert!(rt; is_large(&[0; 4_097]));
}

/// Keys in their order: of fewer bytes than half a word has, than a word has, of one word, and of more; some begin alike.
const ASCENDING: [&[u8]; 13] = [
    b"",
    b"a",
    b"ab",
    b"ac",
    b"b234",
    b"b2345",
    b"b234567",
    b"b234567890123456",
    b"b2345678901234560",
    b"b234567890123457",
    b"b23456\xff",
    b"b2345\x80",
    b"\xff",
];

#[test]
fn keys_are_in_the_order_of_their_bytes(rt: HostRuntime) {
    for (low, key) in ASCENDING.iter().enumerate() {
        for (high, other) in ASCENDING.iter().enumerate() {
            let order = Key::of(Bytes::from_static(key)).cmp(&Key::of(Bytes::from_static(other)));
            assert!(rt; order == low.cmp(&high));
        }
    }
}
