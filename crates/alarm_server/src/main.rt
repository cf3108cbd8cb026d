//! The alarm server: a server, a session or a standby on a site's file, an integer value on trial, or a generated site.
//!
//! `run` and `serve` are the top calls. They stand over any source of octets, any ground and any link, so that their
//! contracts say all that the program does; `run_real` and `serve_real` make the real ones for them, for `main`. Where a text can't be printed, the status is
//! told by its number alone.
#![tactic(auto)]

ghost use Rattle.std.specs.Prelude.{◌≡◌};
ghost use Rattle.std.specs.Process.{exit_status};
ghost use Rattle.alarm_server.specs.Status.{code_of};

mod announcing_link;
mod command;
mod dressed;
mod emission;
mod following;
mod on_file;
mod paths;
mod pieces;
mod real;
mod run;
mod serve;
mod session;
mod settings;
mod ship;
mod standing_by;
mod status;
mod taken;
mod tally;
mod text;
mod trial;
mod waking_gate;
mod waking_link;
mod watch;
mod workload;

use crate::paths::paths_of;
use crate::real::{Places, run_real, serve_real};
use crate::serve::Served;
use crate::status::Status;
use crate::text::read_text;
use ground_io::{DeviceFile, StdSource, TimedSocket};
use site_config::{SiteFault, line_of_refusal};
use std::env::VarError;
use std::fs::{File, OpenOptions};
use std::io::{ErrorKind, Read};
use std::net::UdpSocket;
use std::process::ExitCode;
use std::sync::Wait;
use std::thread::Threads;
use std::time::{Clock, Duration};
use std::{env, io};

const VERSION: &str = "alarm-server 0.3.0";

// So many milliseconds a call for a datagram waits for one.
const PATIENCE: u64 = 200;

const HELP: &str = "alarm-server trial LOW HIGH DEADBAND DELAY NORMAL < SCRIPT

trial puts one Integer Value with the limits LOW and HIGH, a DEADBAND, and the
delays DELAY and NORMAL (in seconds) on trial. SCRIPT has the lines `set M V`
(the value is V from the moment M on) and `tick M` (time has come to M); M is in
milliseconds since 1970. Each move of the event state gives the line
`MOMENT FROM TO`, and the script's end the line `end LINES`.

alarm-server session SITE JOURNAL < SCRIPT

session plays a script to the site that the file SITE describes, and goes on
from the events that the file JOURNAL holds. Each line of SCRIPT gives a piece
of the report: what it came to, the changes of event states, and the datagrams
that go out. An event is in JOURNAL, and on the disk, before its piece is
printed.

alarm-server workload SEED COUNT

workload plays a script of COUNT lines (at most 20000), drawn from SEED, to a
site of its own, and prints one line: how many events, changes, datagrams and
lines with a full outbox the report would have.

alarm-server serve SITE JOURNAL COUNT

serve takes COUNT datagrams (1 to 1000000) from UDP port 47808, answers them,
and sends the notifications of the site that the file SITE describes. It goes on
from the events that the file JOURNAL holds. What is owed for an event goes out
once the event is in JOURNAL, and on the disk. At the end it prints the line
`served RECEIVED EVENTS DURABLE LOST`. ALARM_SERVER_PORT and
ALARM_SERVER_ADDRESS in the environment name another port, and one address.

alarm-server ship SITE JOURNAL FROM

ship prints the packets by which a standby that has the first FROM events comes
to have all that the file JOURNAL holds, one a line: `packet HEX`. Where FROM is
below the number of events of JOURNAL's snapshot, the snapshot comes first, in
pieces. The last line is `end PACKETS EVENTS`: how many packets, and how many
events JOURNAL has.

alarm-server standby SITE JOURNAL < PACKETS

standby takes the packets of such lines into a journal of its own, the file
JOURNAL. It prints `open EVENTS`, for each packet what came of it (`N taken E`,
`N repeat E`, `N gap E`, `N part PLACE` or `N malformed`), and at the end
`end LINES EVENTS`. `taken E` is printed once E events are in JOURNAL, and on
the disk.

alarm-server --help      prints this text
alarm-server --version   prints the version

It ends with 0, or says why not and ends with 1 (a file or the port can't be
opened), 2 (the words are of no form), 3 (the site's text is refused), 4 (a line
of the script is refused), 5 (a file can't be read), 6 (the report can't be
written), 7 (the journal can't be written), 8 (the journal is refused), 9 (no
memory) or 10 (the link failed).
docs/SITE.md, docs/SCRIPT.md and docs/JOURNAL.md describe the files.";

// The words of the command.
fn words_in(rt: &HostRuntime) -> io::Result<Vec<String>> {
    let mut words = Vec::new(rt.alloc());
    for word in env::args(rt)?.skip(1) {
        words.push(word)?;
    }
    Ok(words)
}

// What is printed in place of a run.
fn notice_for(words: &[String]) -> Option<&'static str> {
    let [word] = words else {
        return None;
    };
    match word.as_str() {
        "--help" => Some(HELP),
        "--version" => Some(VERSION),
        _ => None,
    }
}

// Says how a run ended, and answers its number, also where standard error takes no text.
fn ends_with(rt: &HostRuntime, status: Status) -> ExitCode
    ensures number { exit_status result ≡ code_of status }
{
    if status != Status::Done {
        let _said = eprintln!(rt; "{status}");
    }
    ExitCode::from(status.code())
}

// Runs what the words ask for, with a site's text from a reader and a journal or none, and answers how that ended.
fn run_with<R: Read + Drop>(
    rt: &HostRuntime,
    words: &[String],
    site: R,
    journal: Option<DeviceFile>,
) -> Status {
    let (site, script, device, status) = run_real(
        rt.alloc(),
        words,
        site,
        rt.reader(),
        journal,
        io::writer(rt),
    );
    drop(site);
    drop(script);
    drop(device);
    status
}

// The file of a journal, to be read and written. It isn't made.
fn open_journal_file(rt: &HostRuntime, path: &str) -> io::Result<DeviceFile> {
    let file = OpenOptions::new().read(true).write(true).open(rt, path)?;
    DeviceFile::new(file)
}

// The number of the line in which the reader of TOML refuses the text of a file, which is read once more.
fn line_refused(rt: &HostRuntime, path: &str) -> Option<u32> {
    let file = File::open(rt, path).ok()?;
    let text = read_text(rt.alloc(), &mut StdSource::new(file)).ok()?;
    line_of_refusal(rt.alloc(), text.as_slice())
}

// Says how a run on the file of that path ended, and in which line where the file is no TOML.
fn ends_on_file(rt: &HostRuntime, path: &str, status: Status) -> ExitCode
    ensures number { exit_status result ≡ code_of status }
{
    let not_toml = Status::SiteRefused {
        fault: SiteFault::NotToml,
    };
    let line = if status == not_toml {
        line_refused(rt, path)
    } else {
        None
    };
    let code = ends_with(rt, status);
    if let Some(line) = line {
        let _said = eprintln!(rt; "line {line}");
    }
    code
}

// Says that a file can't be opened, or that there is no memory for it.
fn cannot_open(rt: &HostRuntime, error: &io::Error) -> ExitCode {
    if error.kind() == ErrorKind::OutOfMemory {
        return ends_with(rt, Status::NoMemory);
    }
    let _said = eprintln!(rt; "cannot open");
    ExitCode::from(1)
}

// Runs what the words ask for, with the site's text and the journal from the files of these paths.
fn run_on_files(
    rt: &HostRuntime,
    words: &[String],
    path: &str,
    journal: &str,
) -> io::Result<ExitCode> {
    let file = File::open(rt, path)?;
    let journal = open_journal_file(rt, journal)?;
    let status = run_with(rt, words, file, Some(journal));
    Ok(ends_on_file(rt, path, status))
}

// What the environment has under a name, or this where it has nothing there.
fn set_or(rt: &HostRuntime, name: &str, other: &str) -> io::Result<String> {
    match env::var(rt, name) {
        Ok(text) => Ok(text),
        Err(VarError::NotPresent) => Ok(String::from_str(rt.alloc(), other)?),
        Err(VarError::OutOfMemory) => Err(io::Error::from(ErrorKind::OutOfMemory)),
        Err(VarError::NotUnicode) => Err(io::Error::from(ErrorKind::InvalidData)),
    }
}

// The socket of a server, bound to the address and the port that the environment names, and these.
fn bound(rt: &HostRuntime) -> io::Result<(UdpSocket, String)> {
    let mut place = set_or(rt, "ALARM_SERVER_ADDRESS", "0.0.0.0")?;
    let port = set_or(rt, "ALARM_SERVER_PORT", "47808")?;
    place.push(':')?;
    place.push_str(port.as_str())?;
    let socket = UdpSocket::bind(rt, place.as_str())?;
    Ok((socket, place))
}

// Opens the files of a server and its socket, if they are all there.
fn open_places(rt: &HostRuntime, path: &str, journal: &str) -> io::Result<Places> {
    let site = File::open(rt, path)?;
    let journal = open_journal_file(rt, journal)?;
    let (socket, place) = bound(rt)?;
    let listening = TimedSocket::new(&socket, Duration::from_millis(PATIENCE))?;
    Ok(Places {
        site,
        journal,
        listening,
        socket,
        place,
    })
}

// Says what a server came to, and how it ended.
fn ends_serving(rt: &HostRuntime, path: &str, served: Served) -> ExitCode
    ensures number { exit_status result ≡ code_of served.status }
{
    let Served {
        status,
        received,
        events,
        durable,
        lost,
    } = served;
    let _said = println!(rt; "served {received} {events} {durable} {lost}");
    ends_on_file(rt, path, status)
}

// Prints a text in place of a run.
fn prints(rt: &HostRuntime, notice: &str) -> ExitCode {
    match println!(rt; "{notice}") {
        Ok(()) => ExitCode::SUCCESS,
        Err(_) => ends_with(rt, Status::EmitFault),
    }
}

// Serves the site of a file, with the journal of another, at the port that the environment names. `workers` is the runtime
// as that which starts threads.
fn serve_on_files<R: Threads + Wait + Sync + Clock>(
    rt: &HostRuntime,
    workers: &R,
    words: &[String],
    path: &str,
    journal: &str,
) -> io::Result<ExitCode> {
    let places = open_places(rt, path, journal)?;
    let (source, device, link, served) = serve_real(rt, workers, words, places, io::writer(rt));
    drop(source);
    drop(device);
    drop(link);
    Ok(ends_serving(rt, path, served))
}

// Runs or serves what the words ask for.
fn begin<R: Threads + Wait + Sync + Clock>(
    rt: &HostRuntime,
    workers: &R,
    words: &[String],
) -> io::Result<ExitCode> {
    let Some(paths) = paths_of(words) else {
        return Ok(ends_with(rt, Status::Usage));
    };
    let site = paths.site.and_then(|place| words.get(place));
    let journal = paths.journal.and_then(|place| words.get(place));
    match (site, journal) {
        (Some(site), Some(journal)) if paths.serves => {
            serve_on_files(rt, workers, words, site.as_str(), journal.as_str())
        }
        (Some(site), Some(journal)) => run_on_files(rt, words, site.as_str(), journal.as_str()),
        _ => {
            let status = run_with(rt, words, io::empty(), None);
            Ok(ends_with(rt, status))
        }
    }
}

// A word that is no text is one of no form.
fn main(rt: HostRuntime) -> ExitCode {
    let words = match words_in(&rt) {
        Ok(words) => words,
        Err(error) if error.kind() == ErrorKind::OutOfMemory => {
            return ends_with(&rt, Status::NoMemory);
        }
        Err(_) => return ends_with(&rt, Status::Usage),
    };
    if let Some(notice) = notice_for(&words) {
        return prints(&rt, notice);
    }
    match begin(&rt, &rt, &words) {
        Ok(code) => code,
        Err(error) => cannot_open(&rt, &error),
    }
}
