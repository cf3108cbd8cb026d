//! How many parts an array has.

ghost use Rattle.std.specs.Prelude.{◌≡◌, ◌≤◌, ℕ, ◌^◌, IfOk, IsErr};

use crate::NoMemory;

/// The number of an array's parts, in the 32 bits in which a property tells it. No array that memory holds has more.
pub fn part_count(length: usize) -> Result<u32, NoMemory>
    ensures same { IfOk result (λ count. count ≡ length) }
    ensures refused { IsErr result → 2 ^ 32 ≤ length }
{
    if length <= 4_294_967_295 {
        Ok(length as u32)
    } else {
        Err(NoMemory)
    }
}
