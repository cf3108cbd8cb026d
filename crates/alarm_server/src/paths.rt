//! Which of the words name files.

ghost use Rattle.std.specs.Prelude.{◌≡◌, map, string_bytes};
ghost use Rattle.alarm_server.specs.Paths.{paths_for};

use crate::command::{Command, count_of, read_command};

/// Where the words name the files that a program opens, as places in the words from 0.
#[derive(Clone, Copy, Debug, PartialEq, Eq)]
pub struct Paths {
    /// The site's file.
    pub site: Option<usize>,
    /// The journal's file.
    pub journal: Option<usize>,
    /// Whether the program serves its peers.
    pub serves: bool,
}

/// The files that the words name, and none exactly where the words are none of the forms.
pub fn paths_of(words: &[String]) -> Option<Paths>
    ensures paths { result ≡ paths_for (map string_bytes words.now) }
{
    if count_of(words).is_some() {
        return Some(Paths {
            site: Some(1),
            journal: Some(2),
            serves: true,
        });
    }
    let (site, journal) = match read_command(words)? {
        Command::Session | Command::Ship { .. } | Command::Standby => (Some(1), Some(2)),
        Command::Trial { .. } | Command::Workload { .. } => (None, None),
    };
    Some(Paths {
        site,
        journal,
        serves: false,
    })
}
