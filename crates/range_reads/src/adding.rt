//! Lists that grow by what there may be.
ghost use Rattle.std.specs.Prelude.{◌≡◌, ◌++◌, option_to_list, OnErr, OnOk};

use std::alloc::AllocError;

/// Adds an item, if there is one.
pub(crate) fn push_some<T: Drop>(items: &mut Vec<T>, item: Option<T>) -> Result<(), AllocError>
    ensures ok { OnOk result (items.new.items ≡ items.old.items ++ option_to_list item) }
    ensures err { OnErr result (items.new.items ≡ items.old.items) }
{
    match item {
        None => Ok(()),
        Some(added) => {
            items.push(added)?;
            Ok(())
        }
    }
}
