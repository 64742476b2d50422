//! Beginnings of a list that goes on growing.
ghost use Rattle.std.specs.Prelude.{◌≡◌, ◌++◌};
ghost use Rattle.stamp_marks.specs.Prefixes.{lent_item};

use std::marker::Model;
use std::snapshot::Snapshot;

/// What stood in a list, and perhaps the item that comes next. It exists in proofs alone, and has no bytes.
#[derive(Drop)]
pub struct Prefix<X> {
    items: Snapshot<Vec<X>>,
    next: Option<Snapshot<X>>,
}

impl<X> Model for Prefix<X> {
    ghost use Rattle.std.specs.Prelude.{List, ◌++◌};
    ghost use Rattle.stamp_marks.specs.Prefixes.{item_of};

    ghost Value = { List X };

    ghost view = { λ p. p.items.value.items ++ item_of p.next };
}

/// What stands in a list, and perhaps the item that comes next; takes no memory.
pub fn prefix_of<X>(items: &Vec<X>, next: Option<&X>) -> Snapshot<Prefix<X>>
    ensures { result.value ≡ items.now.items ++ lent_item next.entry }
{
    let next = match next {
        None => None,
        Some(item) => Some(Snapshot::of(item)),
    };
    Snapshot::of(&Prefix {
        items: Snapshot::of(items),
        next,
    })
}

/// What stands in a list; takes no memory.
pub fn whole_of<X>(items: &Vec<X>) -> Snapshot<Prefix<X>>
    ensures { result.value ≡ items.now.items }
{
    Snapshot::of(&Prefix {
        items: Snapshot::of(items),
        next: None,
    })
}
