//! The order of a call's arguments, where it isn't that in which they are written.
ghost use Rattle.std.specs.Prelude.{◌≡◌, IfOk};
ghost use Rattle.xp_resolve.specs.Order as spec;

use crate::lists::swapped;
use sqlite_items::Items;
use xp_base::Memory;

#[derive(Clone, Copy, Debug, PartialEq, Eq)]
pub enum Order {
    AsWritten,
    /// The second is written before the first.
    Swapped,
}

/// What is written in that order in the other one.
pub fn in_order<T: Drop>(order: Order, list: Items<T>) -> Result<Items<T>, Memory>
    ensures { IfOk result (λ l. l ≡ spec.in_order order list) }
{
    match order {
        Order::AsWritten => Ok(list),
        Order::Swapped => swapped(list),
    }
}
