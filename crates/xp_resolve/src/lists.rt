//! Lists that are taken from their ends.
ghost use Rattle.std.specs.Prelude.{◌≡◌, ◌≤◌, ◌++◌, ◌∷◌, [], IfOk, OnOk, length, reverse};
ghost use Rattle.xp_resolve.specs.Order as spec;

use sqlite_items::Items;
use std::alloc::Global;
use xp_base::Memory;

/// Two, the second first; any other list stays.
pub fn swapped<T: Drop>(items: Items<T>) -> Result<Items<T>, Memory>
    ensures { IfOk result (λ list. list ≡ spec.swapped items) }
{
    let mut list = items;
    if list.len() != 2 {
        return Ok(list);
    }
    if let Some(second) = list.pop() {
        if let Some(first) = list.pop() {
            push(&mut list, second)?;
            push(&mut list, first)?;
        }
    }
    Ok(list)
}

/// All, the last first, in a list of their own.
#[tactic(auto, using(crate::proofs::Queues::moved))]
fn turned<T: Drop>(alloc: Global, items: Items<T>) -> Result<Items<T>, Memory>
    ensures { IfOk result (λ turned. turned ≡ reverse items) }
{
    let mut left = items;
    let mut turned = Items::new(alloc);
    while let Some(item) = left.pop() {
        turned.push(item)?;
    }
    Ok(turned)
}

/// The last first; one or two need no other list.
#[tactic(auto, using(crate::proofs::Queues::one_turned, crate::proofs::Queues::two_turned))]
pub fn reversed<T: Drop>(alloc: Global, items: Items<T>) -> Result<Items<T>, Memory>
    ensures { IfOk result (λ turned. turned ≡ reverse items) }
{
    if items.len() < 2 {
        return Ok(items);
    }
    if items.len() == 2 {
        return swapped(items);
    }
    turned(alloc, items)
}

/// So many of the last ones, the last first, which are taken off.
#[tactic(auto, using(crate::proofs::Queues::moved))]
fn taken_off<T: Drop>(alloc: Global, items: &mut Items<T>, count: usize) -> Result<Items<T>, Memory>
    requires { count ≤ length items.old }
    ensures whole { IfOk result (λ turned. items.new ++ reverse turned ≡ items.old) }
    ensures count { IfOk result (λ turned. length turned ≡ count) }
{
    let mut turned = Items::new(alloc);
    for _place in 0..count {
        match items.pop() {
            Some(item) => turned.push(item)?,
            None => break,
        }
    }
    Ok(turned)
}

/// The last ones, behind those that stay in `items`.
pub fn split_last<T: Drop>(
    alloc: Global,
    items: &mut Items<T>,
    count: usize,
) -> Result<Items<T>, Memory>
    requires { count ≤ length items.old }
    ensures whole { IfOk result (λ rest. items.new ++ rest ≡ items.old) }
    ensures count { IfOk result (λ rest. length rest ≡ count) }
{
    let turned = taken_off(alloc, items, count)?;
    reversed(alloc, turned)
}

/// Adds one at the end.
pub fn push<T: Drop>(items: &mut Items<T>, item: T) -> Result<(), Memory>
    ensures { OnOk result (items.new ≡ items.old ++ item ∷ []) }
{
    items.push(item)?;
    Ok(())
}
