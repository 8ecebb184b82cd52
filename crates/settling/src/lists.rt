//! Lists of the items of ticks.
ghost use Rattle.std.specs.Prelude.{◌≡◌, ◌++◌, OnOk};

use out_of_memory::Memory;

/// Appends further items to these.
pub(crate) fn add<T: Drop>(items: &mut Vec<T>, mut further: Vec<T>) -> Result<(), Memory>
    ensures { OnOk result (items.new.items ≡ items.old.items ++ further.items) }
{
    items.append(&mut further)?;
    Ok(())
}
