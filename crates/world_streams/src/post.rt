//! Lists that grow by what a step gives, in room that was made before the step.
ghost use Rattle.std.specs.Prelude.{◌≡◌, [], ◌++◌, ◌+◌, ◌≤◌, OnOk, vec_len, vec_capacity};

use std::alloc::AllocError;

/// No step sends more packets than this, or shows more observations.
pub(crate) const MOST: usize = 2048;

/// Makes room for what a step may give. Nothing else changes.
pub(crate) fn make_room<T>(list: &mut Vec<T>) -> Result<(), AllocError>
    ensures same { list.new.items ≡ list.old.items }
    ensures room { OnOk result (vec_len list.new + MOST ≤ vec_capacity list.new) }
{
    list.reserve(MOST)
}

/// Moves these to the end, into room that is there.
pub(crate) fn move_in<T: Drop>(list: &mut Vec<T>, more: Vec<T>)
    requires { vec_len list.old + vec_len more ≤ vec_capacity list.old }
    ensures { list.new.items ≡ list.old.items ++ more.items }
{
    for item in more {
        list.push_reserved(item);
    }
}

/// Moves all that is in a list to the end of another, into room that is there. The list is empty then, and keeps its room.
pub(crate) fn move_over<T>(list: &mut Vec<T>, more: &mut Vec<T>)
    requires { vec_len list.old + vec_len more.old ≤ vec_capacity list.old }
    ensures moved { list.new.items ≡ list.old.items ++ more.old.items }
    ensures emptied { more.new.items ≡ [] }
{
    let moved: Result<(), AllocError> = list.append(more);
    moved.unwrap();
}
