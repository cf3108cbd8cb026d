//! The generated script.

ghost use Rattle.std.specs.Prelude.{◌≡◌, ◌<◌, ◌≤◌, ◌^◌, IfOk, string_bytes};
ghost use Rattle.work_load.specs.Draws.{drawn, next_seed};
ghost use Rattle.work_load.specs.Kinds.{kind_at, kind_name};
ghost use Rattle.work_load.specs.Script.{digits_of, line_text, seed_behind, set_text, signed_text, value_text, word_at, workload_script};

use crate::appending::append;
use crate::draws::Draws;
use crate::kind::Kind;
use crate::line_kind::LineKind;
use bac_values::NoMemory;
use std::alloc::{AllocError, Global};

// The moment of the site's start, in milliseconds since 1970.
const START: u64 = 1_700_000_000_000;

const OBJECTS: u64 = 40;

fn word_at(place: u64) -> &'static str
    ensures word { result.now ≡ word_at place }
{
    match place {
        0 => "6f6b",
        1 => "666972652032",
        2 => "6c65616b",
        _ => "66616e",
    }
}

// Four bits, the highest first.
fn digits_of(alloc: Global, number: u64) -> Result<String, AllocError>
    ensures digits { IfOk result (λ text. string_bytes text ≡ digits_of number) }
{
    let (a, b, c, d) = (number / 8 % 2, number / 4 % 2, number / 2 % 2, number % 2);
    format!(in alloc; "{a}{b}{c}{d}")
}

fn signed_text(alloc: Global, number: u64) -> Result<String, AllocError>
    requires { number < 121 }
    ensures text { IfOk result (λ text. string_bytes text ≡ signed_text number) }
{
    let value = number as i64 - 10;
    format!(in alloc; "signed:{value}")
}

// A value for an object of a kind.
fn value_text(alloc: Global, kind: Kind, draws: &mut Draws) -> Result<String, AllocError>
    ensures seed { draws.new.seed ≡ next_seed draws.old.seed }
    ensures text { IfOk result (λ text. string_bytes text ≡ value_text kind draws.new.seed) }
{
    match kind {
        Kind::Integer => signed_text(alloc, draws.draw(121)),
        Kind::PositiveInteger => {
            let value = draws.draw(121);
            format!(in alloc; "unsigned:{value}")
        }
        Kind::Binary => {
            let word = if draws.draw(2) == 1 {
                "active"
            } else {
                "inactive"
            };
            String::from_str(alloc, word)
        }
        Kind::MultiState => {
            let value = 1 + draws.draw(4);
            format!(in alloc; "unsigned:{value}")
        }
        Kind::BitString => {
            let digits = digits_of(alloc, draws.draw(16))?;
            format!(in alloc; "bits:{digits}")
        }
        Kind::CharacterString => {
            let word = word_at(draws.draw(4));
            format!(in alloc; "text:{word}")
        }
    }
}

// A line that sets an object to a value; both are drawn.
fn set_text(alloc: Global, moment: u64, draws: &mut Draws) -> Result<String, AllocError>
    ensures seed { IfOk result (λ _. draws.new.seed ≡ next_seed (next_seed draws.old.seed)) }
    ensures text { IfOk result (λ text. string_bytes text ≡ set_text moment draws.old.seed) }
{
    let instance = draws.draw(OBJECTS);
    let kind = Kind::at(instance);
    let value = value_text(alloc, kind, draws)?;
    let name = kind.name();
    format!(in alloc; "set {moment} {name}:{instance} {value}\n")
}

// One line.
fn line_text(alloc: Global, number: u64, draws: &mut Draws) -> Result<String, AllocError>
    requires { number ≤ 2 ^ 32 }
    ensures seed { IfOk result (λ _. draws.new.seed ≡ seed_behind number draws.old.seed) }
    ensures text { IfOk result (λ text. string_bytes text ≡ line_text number draws.old.seed) }
{
    let moment = START + 1000 * number;
    match LineKind::at(number) {
        LineKind::Pump => format!(in alloc; "pump {moment}\n"),
        LineKind::Request => {
            format!(in alloc; "from {moment} 10.1.0.9:47808 810a000a01040005011d\n")
        }
        LineKind::Tick => format!(in alloc; "tick {moment}\n"),
        LineKind::Set => set_text(alloc, moment, draws),
    }
}

/// A script of so many lines for the workload's site, drawn from a seed: sets of all objects, pumps, ticks, and requests
/// for event information.
pub fn make_script(alloc: Global, seed: u64, count: u32) -> Result<Vec<u8>, NoMemory>
    ensures script { IfOk result (λ script. script.items ≡ workload_script seed count) }
{
    let mut draws = Draws { seed };
    let mut script = Vec::new(alloc);
    for place in 0..u64::from(count) {
        let line = line_text(alloc, place + 1, &mut draws)?;
        append(&mut script, line.as_str())?;
    }
    Ok(script)
}
