//! Vectors grow by an item.

ghost use Rattle.std.specs.Prelude.{◌≡◌, ◌++◌, ◌∷◌, [], IfOk, OnErr, OnOk};

use crate::NoMemory;
use std::alloc::Global;

/// Puts an item behind the others.
pub fn push<T: Drop>(items: &mut Vec<T>, item: T) -> Result<(), NoMemory>
    ensures added { OnOk result (items.new.items ≡ items.old.items ++ item ∷ []) }
    ensures same { OnErr result (items.new.items ≡ items.old.items) }
{
    match items.push(item) {
        Ok(()) => Ok(()),
        Err(_refused) => Err(NoMemory),
    }
}

/// One item.
pub fn single<T: Drop>(alloc: Global, item: T) -> Result<Vec<T>, NoMemory>
    ensures single { IfOk result (λ items. items.items ≡ item ∷ []) }
{
    let mut items = Vec::new(alloc);
    push(&mut items, item)?;
    Ok(items)
}
