//! The words of a program, and the command that they are.

ghost use Rattle.std.specs.Prelude.{◌≡◌, ◌-◌, ◌^◌, map, string_bytes};
ghost use Rattle.alarm_server.specs.Commands.{command_of, is_session, ship_of, standby_of, workload_of};
ghost use Rattle.alarm_server.specs.ServeWords.{count_in};

use crate::settings::Settings;
use script_lines::unsigned;

/// The most lines that a workload's script may have.
const MOST_LINES: u64 = 20_000;

/// The most datagrams that a server takes.
const MOST_DATAGRAMS: u64 = 1_000_000;

/// What the words of a program ask for.
#[derive(Clone, Copy, Debug)]
pub enum Command {
    /// One object on trial.
    Trial {
        /// The settings of the object.
        settings: Settings,
    },
    /// A session of the site of a file.
    Session,
    /// A session of a generated site, by a generated script.
    Workload {
        /// The seed from which the script is drawn.
        seed: u64,
        /// How many lines it has, at most 20,000.
        count: u32,
    },
    /// The packets by which a standby comes to have what a journal holds.
    Ship {
        /// Behind how many events, which the standby has, the packets begin.
        from: u64,
    },
    /// A standby on the site of a file, with a journal of its own.
    Standby,
}

// Whether the words are `session SITE JOURNAL`.
fn is_session(words: &[String]) -> bool
    ensures session { result ≡ is_session (map string_bytes words.now) }
{
    match words {
        [session, _site, _journal] => session.as_str() == "session",
        _ => false,
    }
}

// What the words `workload SEED COUNT` ask for.
fn read_workload(words: &[String]) -> Option<Command>
    ensures workload { result ≡ workload_of (map string_bytes words.now) }
{
    let [workload, seed, count] = words else {
        return None;
    };
    if workload.as_str() != "workload" {
        return None;
    }
    Some(Command::Workload {
        seed: unsigned(seed.as_bytes(), u64::MAX)?,
        count: unsigned(count.as_bytes(), MOST_LINES)? as u32,
    })
}

// What the words `ship SITE JOURNAL FROM` ask for.
fn read_ship(words: &[String]) -> Option<Command>
    ensures ship { result ≡ ship_of (map string_bytes words.now) }
{
    let [ship, _site, _journal, from] = words else {
        return None;
    };
    if ship.as_str() != "ship" {
        return None;
    }
    Some(Command::Ship {
        from: unsigned(from.as_bytes(), u64::MAX)?,
    })
}

// What the words `standby SITE JOURNAL` ask for.
fn read_standby(words: &[String]) -> Option<Command>
    ensures standby { result ≡ standby_of (map string_bytes words.now) }
{
    match words {
        [standby, _site, _journal] if standby.as_str() == "standby" => Some(Command::Standby),
        _ => None,
    }
}

/// What the words ask for, and none exactly where they are of no form.
pub fn read_command(words: &[String]) -> Option<Command>
    ensures command { result ≡ command_of (map string_bytes words.now) }
{
    if let Some(settings) = Settings::read(words) {
        return Some(Command::Trial { settings });
    }
    if is_session(words) {
        return Some(Command::Session);
    }
    if let Some(workload) = read_workload(words) {
        return Some(workload);
    }
    if let Some(ship) = read_ship(words) {
        return Some(ship);
    }
    read_standby(words)
}

/// How many datagrams the words `serve SITE JOURNAL COUNT` ask a server to take, from 1 to 1,000,000.
pub fn count_of(words: &[String]) -> Option<u32>
    ensures count { result ≡ count_in (map string_bytes words.now) }
{
    let [serve, _site, _journal, count] = words else {
        return None;
    };
    if serve.as_str() != "serve" {
        return None;
    }
    let count = unsigned(count.as_bytes(), MOST_DATAGRAMS)?;
    if count == 0 {
        return None;
    }
    Some(count as u32)
}
