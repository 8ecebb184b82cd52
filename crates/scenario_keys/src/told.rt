//! The reports of faults.
ghost use Rattle.std.specs.Prelude.{◌≡◌};
ghost use Rattle.scenario_keys.specs.ToldFaults.{fault_by, fault_by_at, fault_listed, item_of};

use crate::cause::Cause;
use crate::key::Key;

/// Returns the fault of a key without items.
pub fn fault_by(row: u8, cause: Option<Cause>) -> Option<(Key, Cause)>
    ensures { result ≡ fault_by row cause }
{
    match cause {
        Some(cause) => Some((Key { row, item: 0 }, cause)),
        None => None,
    }
}

/// Returns the index of an item, at most the greatest index that a key can store.
fn item_of(item: usize) -> u16
    ensures { result ≡ item_of item }
{
    match u16::try_from(item) {
        Ok(item) => item,
        Err(_) => u16::MAX,
    }
}

/// Returns the fault of a list at one of its items.
pub fn fault_listed(row: u8, fault: Option<(usize, Cause)>) -> Option<(Key, Cause)>
    ensures { result ≡ fault_listed row fault }
{
    match fault {
        Some((item, cause)) => {
            let item = item_of(item);
            Some((Key { row, item }, cause))
        }
        None => None,
    }
}

/// Returns the fault of a key at an item.
pub fn fault_at(row: u8, item: usize, cause: Option<Cause>) -> Option<(Key, Cause)>
    ensures { result ≡ fault_by_at row (item_of item) cause }
{
    match cause {
        Some(cause) => {
            let item = item_of(item);
            Some((Key { row, item }, cause))
        }
        None => None,
    }
}
