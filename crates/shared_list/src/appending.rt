//! Appending in one thread.

ghost use Rattle.std.specs.Prelude.{◌≡◌, [], ◌∷◌, ◌++◌, IfOk, IfErr, map};
ghost use Rattle.turnstile.specs.Passes.{IsOf};
ghost use Rattle.shared_list.specs.declared.list.Call.TheVariants.{Appended, Refused};
ghost use Rattle.shared_list.specs.Calls.{Makes};

use crate::list::{Call, ListPass, SharedList};
use std::sync::Wait;
use turnstile::{NoMemory, Turnstile};

/// Appends one entry at a turn of the pass. Where there is no memory for it the list stays as it was, and
/// the refusal is the pass's call.
pub fn append<R: Wait>(
    rt: &R,
    list: &Turnstile<SharedList>,
    pass: ListPass,
    entry: u64,
) -> Result<ListPass, (ListPass, NoMemory)>
    requires { IsOf list.now pass }
    ensures ok { IfOk result (λ after. Makes pass after (Appended entry)) }
    ensures refused { IfErr result (λ back. Makes pass back.0 Refused) }
{
    let mut turn = list.take(rt, pass);
    match turn.value.push(entry) {
        Ok(()) => Ok(list.give(turn, &Call::Appended(entry))),
        Err(failed) => Err((list.give(turn, &Call::Refused), NoMemory::from(failed))),
    }
}

/// Appends each of the entries at a turn of its own. It stops at the first for which there is no memory.
pub fn append_each<R: Wait>(
    rt: &R,
    list: &Turnstile<SharedList>,
    mut pass: ListPass,
    entries: &[u64],
) -> Result<ListPass, NoMemory>
    requires { IsOf list.now pass }
    ensures here { IfOk result (λ after. IsOf list.entry.now after) }
    ensures calls { IfOk result (λ after. after.mine ≡ pass.mine ++ map Appended entries.now) }
    ensures rest { IfOk result (λ after. (after.number ≡ pass.number) × (after.carried ≡ pass.carried) × (after.split_off ≡ pass.split_off)) }
{
    for entry in entries {
        pass = match append(rt, list, pass, *entry) {
            Ok(after) => after,
            Err((_, refused)) => return Err(refused),
        };
    }
    Ok(pass)
}
