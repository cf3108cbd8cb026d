//! How many destinations name each class.

ghost use Rattle.std.specs.Prelude.{◌≡◌, ◌+◌, ◌==◌, ◌<◌, ◌^◌, ℕ, if◌then◌else◌, IfOk, OnOk};
ghost use Rattle.site_config.specs.Limits.{count_in, count_of};

use crate::destination::DestinationSite;
use bac_values::NoMemory;
use std::alloc::Global;
use std::collections::BTreeMap;

/// How many destinations name each class.
type Counts = BTreeMap<u32, u64>;

/// How many destinations name the class.
pub fn count_in(counts: &Counts, class: u32) -> u64
    ensures count { result ≡ count_in counts.now class }
{
    counts.get(&class).copied().unwrap_or(0)
}

/// One more destination names the class.
fn count_one(counts: &mut Counts, class: u32) -> Result<(), NoMemory>
    requires room { count_in counts.old class + 1 < 2 ^ 64 }
    ensures counted { OnOk result ((number : ℕ) → count_in counts.new number ≡ count_in counts.old number + (if class == number then 1 else 0)) }
{
    let count = count_in(counts, class) + 1;
    match counts.insert(class, count) {
        Ok(_) => Ok(()),
        Err(_refused) => Err(NoMemory),
    }
}

/// How many destinations name each class, in one pass.
pub fn counts_of(alloc: Global, destinations: &[DestinationSite]) -> Result<Counts, NoMemory>
    ensures counts { IfOk result (λ counts. (class : ℕ) → count_in counts class ≡ count_of class destinations.now) }
{
    let mut counts = BTreeMap::new(alloc);
    for site in destinations {
        count_one(&mut counts, site.class.instance())?;
    }
    Ok(counts)
}
