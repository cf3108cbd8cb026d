//! Each call of a turnstile once, on one thread, and most of them on two.
ghost use Rattle.std.specs.Prelude.{◌≡◌};
ghost use Rattle.turnstile.specs.Passes.{IsOf};

use std::sync::Wait;
use std::test::Fail;
use std::thread;
use turnstile::{Chronicle, Pass, Turnstile};

// It stands for each history, and each history licenses each mark.
#[derive(Drop)]
struct Count {
    turns: u64,
}

impl Chronicle for Count {
    ghost use Rattle.std.specs.Prelude.{⊤};

    type Entry = u64;

    type Origin = ();

    ghost stands = { λ _ _. ⊤ };

    ghost origin = { λ _. tt };

    ghost licenses = { λ _ _. ⊤ };

    ghost licenses_more = { λ _ _ _ _. tt };
}

#[test]
fn takes_turns_marks_and_closes(rt: HostRuntime) -> Result<(), Fail> {
    let (count, pass) = match Turnstile::open(rt.alloc(), Count { turns: 0 }) {
        Ok(opened) => opened,
        Err((_, refused)) => return Err(Fail::from(refused)),
    };
    let mut turn = count.take(&rt, pass);
    assert_eq!(rt; turn.place, 1);
    turn.value.turns = 1;
    let pass = count.give(turn, &30);
    let (one, two) = match count.split(pass) {
        Ok(both) => both,
        Err((_, refused)) => return Err(Fail::from(refused)),
    };
    let one = count.raise_mark(one, 5);
    let one = count.raise_mark(one, 4);
    let (two, mark) = count.load_mark(two);
    assert_eq!(rt; mark, 5);
    let turn = count.take(&rt, count.join(one, two));
    assert_eq!(rt; turn.place, 2);
    assert_eq!(rt; count.close(turn).turns, 1);
    Ok(())
}

type CountPass = Pass<u64, ()>;

// Takes a turn, which counts, and raises the mark.
fn count_once<R: Wait>(rt: &R, count: &Turnstile<Count>, pass: CountPass, mark: u64) -> CountPass
    requires { IsOf count.now pass }
    ensures here { IsOf count.entry.now result }
{
    let mut turn = count.take(rt, pass);
    turn.value.turns = turn.value.turns.wrapping_add(1);
    count.raise_mark(count.give(turn, &mark), mark)
}

#[test]
fn two_threads_take_turns_and_raise_the_mark(rt: HostRuntime) -> Result<(), Fail> {
    let (count, pass) = match Turnstile::open(rt.alloc(), Count { turns: 0 }) {
        Ok(opened) => opened,
        Err((_, refused)) => return Err(Fail::from(refused)),
    };
    let (one, two) = match count.split(pass) {
        Ok(both) => both,
        Err((_, refused)) => return Err(Fail::from(refused)),
    };
    let (one, two) = thread::join(
        &rt,
        || count_once(&rt, &count, one, 5),
        || count_once(&rt, &count, two, 4),
    );
    let (pass, mark) = count.load_mark(count.join(one, two));
    assert_eq!(rt; mark, 5);
    let turn = count.take(&rt, pass);
    assert_eq!(rt; turn.place, 3);
    assert_eq!(rt; count.close(turn).turns, 2);
    Ok(())
}
