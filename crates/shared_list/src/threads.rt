//! Appending in many threads.

ghost use Rattle.std.specs.Prelude.{◌≡◌, ℕ, List, [], ◌<◌, IfOk, length, map, sum_by};
ghost use Rattle.std.specs.Thread.{IsSync};
ghost use Rattle.turnstile.specs.Passes.{IsOf, all_calls, SameShare};
ghost use Rattle.shared_list.specs.declared.list.Call.{Call};
ghost use Rattle.shared_list.specs.Calls.{appended, calls_of, Stand};

use crate::appending::append_each;
use crate::list::{ListPass, SharedList};
use std::alloc::Global;
use std::sync::Wait;
use std::thread::{Threads, join};
use turnstile::{NoMemory, Turnstile};

/// Appends each of the lists under a pass of its own, half of them in another thread. The answer is all of
/// these passes joined, which has the share of the pass that was given.
pub fn append_lists<R: Threads + Wait + Sync>(
    rt: &R,
    list: &Turnstile<SharedList>,
    pass: ListPass,
    lists: &[Vec<u64>],
) -> Result<ListPass, NoMemory>
    requires here { IsOf list.now pass }
    requires new { (pass.mine ≡ []) × (pass.carried ≡ []) }
    requires some { 0 < length lists.now }
    ensures here { IfOk result (λ after. IsOf list.entry.now after) }
    ensures calls { IfOk result (λ after. map (λ c. c.1) (all_calls after) ≡ calls_of lists.now) }
    ensures share { IfOk result (λ after. SameShare pass after) }
{
    if lists.len() == 1 {
        return append_each(rt, list, pass, lists[0].as_slice());
    }
    let (left, right) = lists.split_at(lists.len() / 2);
    let (one, two) = match list.split(pass) {
        Ok(both) => both,
        Err(_) => unreachable!(),
    };
    let (one, two) = join(
        rt,
        || -> Result<ListPass, NoMemory>
            requires { IsSync R.row × IsOf list.now one × (one.mine ≡ []) × (one.carried ≡ []) × (0 < length left.now) }
            ensures { IfOk result (λ after. IsOf list.entry.now after × (map (λ c. c.1) (all_calls after) ≡ calls_of left.entry.now) × SameShare one after) }
        { append_lists(rt, list, one, left) },
        || -> Result<ListPass, NoMemory>
            requires { IsSync R.row × IsOf list.now two × (two.mine ≡ []) × (two.carried ≡ []) × (0 < length right.now) }
            ensures { IfOk result (λ after. IsOf list.entry.now after × (map (λ c. c.1) (all_calls after) ≡ calls_of right.entry.now) × SameShare two after) }
        { append_lists(rt, list, two, right) },
    );
    let one = one?;
    let two = two?;
    Ok(list.join(one, two))
}

/// Opens a list, appends each of the lists from a thread of its own, and closes it. There is one history
/// that the answer stands for. Each of the lists stands in it, whole and in its order, under a number of
/// its own, and nothing else does. So the answer is as long as the lists together.
pub fn append_all<R: Threads + Wait + Sync>(
    rt: &R,
    alloc: Global,
    lists: &[Vec<u64>],
) -> Result<SharedList, NoMemory>
    requires { 0 < length lists.now }
    ensures history { IfOk result (λ list. (history : List (ℕ × Call)) × (list ≡ appended history) × Stand history (calls_of lists.now)) }
    ensures length { IfOk result (λ list. length list ≡ sum_by (λ each. length each.items) lists.now) }
{
    let (list, pass) = match Turnstile::open(alloc, SharedList::new(alloc)) {
        Ok(opened) => opened,
        Err((_, refused)) => return Err(refused),
    };
    let pass = append_lists(rt, &list, pass, lists)?;
    let turn = list.take(rt, pass);
    Ok(list.close(turn))
}
