//! Generated sites and scripts.

ghost use Rattle.std.specs.Prelude.{◌≢◌};
ghost use Rattle.script_lines.specs.declared.line.Grammar.TheVariants.{Packets};

use crate::comparing::{holds, same};
use crate::script_lines_tests::{Pieces, expect_end};
use script_lines::Lines;
use std::process::Abort;
use std::test::Fail;
use work_load::make_script;

// The first lines of the script of seed 7, drawn by a program of its own.
const SCRIPT: &str = "set 1700000001000 binary-value:38 active
set 1700000002000 multi-state-value:33 unsigned:2
pump 1700000003000
set 1700000004000 positive-integer-value:25 unsigned:28
from 1700000005000 10.1.0.9:47808 810a000a01040005011d
set 1700000006000 integer-value:24 signed:82
tick 1700000007000
set 1700000008000 positive-integer-value:19 unsigned:70
set 1700000009000 characterstring-value:35 text:66616e
set 1700000010000 binary-value:32 inactive
pump 1700000011000
set 1700000012000 characterstring-value:29 text:6c65616b
from 1700000013000 10.1.0.9:47808 810a000a01040005011d
set 1700000014000 characterstring-value:5 text:66616e
tick 1700000015000
set 1700000016000 integer-value:36 signed:87
set 1700000017000 bitstring-value:16 bits:0001
";

#[test]
fn a_script_is_drawn_from_its_seed(rt: HostRuntime) -> Result<(), Fail> {
    let script = make_script(rt.alloc(), 7, 17)?;
    same(&rt, &script.as_slice(), &SCRIPT.as_bytes());
    holds(&rt, make_script(rt.alloc(), 7, 0)?.is_empty());
    Ok(())
}

/// A script has 400 lines.
fn expect_400_lines(rt: &impl Abort, lines: &mut Lines, script: &[u8]) -> Result<(), Fail>
    requires inputs { lines.old.grammar ≢ Packets }
{
    let mut source = Pieces::of(script, 8192);
    for _ in 0..400 {
        lines.next_line(&mut source)?;
    }
    same(rt, &lines.count(), &400);
    expect_end(rt, lines, &mut source)
}

#[test]
fn each_line_of_a_script_is_one_of_a_session(rt: HostRuntime) -> Result<(), Fail> {
    let script = make_script(rt.alloc(), 18_446_744_073_709_551_615, 400)?;
    let mut lines = Lines::new(rt.alloc())?;
    expect_400_lines(&rt, &mut lines, &script)
}
