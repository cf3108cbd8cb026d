//! What a shared list and a ground in memory tell where they are refused memory.
//!
//! With ample memory the entry is appended, and the write is told. `checks/memory` runs this program once for each of the
//! two refusals, and compares what it prints: the list gives its turn back and stays as it was, and the ground fails, and
//! tells nothing from then on.
#![tactic(auto)]

ghost use Rattle.turnstile.specs.Passes.{IsOf};

use ground_io::{Failed, Ground, MemoryGround};
use shared_list::{ListPass, SharedList, append};
use std::alloc::{AllocError, Global};
use std::io;
use std::process::ExitCode;
use std::sync::Wait;
use turnstile::Turnstile;

// An append, after which the pass is there again, and whether the entry is.
fn append_one<R: Wait>(rt: &R, list: &Turnstile<SharedList>, pass: ListPass) -> (ListPass, bool)
    requires { IsOf list.now pass }
    ensures here { IsOf list.entry.now result.0 }
{
    match append(rt, list, pass, 7) {
        Ok(after) => (after, true),
        Err((back, _)) => (back, false),
    }
}

/// Whether a list that is shared takes an entry, and how many it has then. There is none where there is no list.
fn appended<R: Wait>(rt: &R, alloc: Global) -> Option<(bool, usize)> {
    let Ok((list, pass)) = Turnstile::open(alloc, SharedList::new(alloc)) else {
        return None;
    };
    let (pass, is_appended) = append_one(rt, &list, pass);
    let turn = list.take(rt, pass);
    let entries = list.close(turn);
    Some((is_appended, entries.as_slice().len()))
}

fn write_two<G: Ground>(ground: &mut G) -> Result<(), Failed> {
    if ground.size()? < 2 {
        return Err(Failed);
    }
    ground.write_at(0, b"ab")
}

/// Whether a ground in memory takes a write, and whether it still tells what happens.
fn written(alloc: Global) -> Result<(bool, bool), AllocError> {
    let mut ground = MemoryGround::new(alloc, vec![in alloc; 0u8; 2]?, Vec::new(alloc));
    let answer = write_two(&mut ground);
    Ok((answer.is_ok(), ground.trace().is_some()))
}

fn main(rt: HostRuntime) -> io::Result<ExitCode> {
    match appended(&rt, rt.alloc()) {
        Some((true, entries)) => println!(rt; "append: taken, entries: {entries}")?,
        Some((false, entries)) => println!(rt; "append: no memory, entries: {entries}")?,
        None => println!(rt; "append: no list")?,
    }
    match written(rt.alloc()) {
        Ok((true, true)) => println!(rt; "write: taken, and told")?,
        Ok((true, false)) => println!(rt; "write: taken, and not told")?,
        Ok((false, true)) => println!(rt; "write: failed, and told")?,
        Ok((false, false)) => println!(rt; "write: failed, and nothing is told")?,
        Err(_refused) => println!(rt; "write: no ground")?,
    }
    Ok(ExitCode::SUCCESS)
}
