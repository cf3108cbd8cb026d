//! Many callers append to one list. How their turns lie beside one another is up to the schedule; that each
//! caller's entries stand in its order isn't.
ghost use Rattle.std.specs.Prelude.{◌≡◌, IfOk, vec_len};
ghost use Rattle.turnstile.specs.Passes.{IsOf};

use super::*;
use std::alloc::{AllocError, Global};
use std::sync::Wait;
use std::test::Fail;
use std::thread::Threads;
use turnstile::Turnstile;

// There are at most this many callers.
const CALLERS: usize = 8;

// Entry i of caller k is k * STEP + i.
const STEP: u64 = 1_000_000;

fn entries_of(alloc: Global, caller: u64, count: u64) -> Result<Vec<u64>, AllocError> {
    let mut entries = Vec::new(alloc);
    for i in 0..count {
        entries.push(caller.wrapping_mul(STEP).wrapping_add(i))?;
    }
    Ok(entries)
}

fn lists_of(alloc: Global, callers: u64, count: u64) -> Result<Vec<Vec<u64>>, AllocError> {
    let mut lists = Vec::new(alloc);
    for caller in 0..callers {
        lists.push(entries_of(alloc, caller, count)?)?;
    }
    Ok(lists)
}

// How many entries come after just those of their caller that are to come before them.
fn in_order(list: &[u64]) -> u64 {
    let mut next = [0u64; CALLERS];
    let mut found = 0u64;
    for entry in list {
        let caller = (*entry / STEP) as usize;
        if caller < CALLERS && next[caller] == *entry % STEP {
            next[caller] = next[caller].wrapping_add(1);
            found = found.wrapping_add(1);
        }
    }
    found
}

// What is printed of a run with these many callers, each with a list of `count` entries.
fn run<R: Threads + Wait + Sync>(
    rt: &R,
    alloc: Global,
    callers: u64,
    count: u64,
) -> Result<String, Fail> {
    let lists = lists_of(alloc, callers, count)?;
    if lists.len() == 0 {
        return Ok(String::new(alloc));
    }
    let list = append_all(rt, alloc, lists.as_slice())?;
    let entries = list.as_slice();
    Ok(format!(in alloc;
        "{} callers, {} entries, {} in order",
        callers,
        entries.len(),
        in_order(entries)
    )?)
}

#[test]
fn two_callers_take_a_hundred_thousand_turns(rt: HostRuntime) -> Result<(), Fail> {
    let line = run(&rt, rt.alloc(), 2, 50_000)?;
    println!(rt; "{line}")?;
    assert_eq!(rt; line.as_str(), "2 callers, 100000 entries, 100000 in order");
    Ok(())
}

#[test]
fn eight_callers_take_a_hundred_thousand_turns(rt: HostRuntime) -> Result<(), Fail> {
    let line = run(&rt, rt.alloc(), 8, 12_500)?;
    println!(rt; "{line}")?;
    assert_eq!(rt; line.as_str(), "8 callers, 100000 entries, 100000 in order");
    Ok(())
}
