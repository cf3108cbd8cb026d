//! The top calls over the real ends, which are made inside, so that each is told for whatever these are supposed to have.

ghost use Rattle.std.specs.Prelude.{◌≡◌, ◌↔◌, None, map, string_bytes};
ghost use Rattle.ground_io.specs.InMemory.{bytes_of};
ghost use Rattle.alarm_server.specs.declared.status.Status.TheVariants as status;
ghost use Rattle.alarm_server.specs.Commands.{command_of};
ghost use Rattle.alarm_server.specs.Real.{RunEnds, RunsReal, ServerEnds, ServesReal};
ghost use Rattle.alarm_server.specs.RealLaws.{ServersAreTold, ServersGoOn, SessionsAreTold, SessionsGoOn};
ghost use Rattle.alarm_server.specs.ServeWords.{count_in};

use crate::announcing_link::AnnouncingLink;
use crate::dressed::serve_over;
use crate::run::run;
use crate::serve::Served;
use crate::status::Status;
use ground_io::{DeviceFile, FileGround, Link, StdSource, TimedSocket, UdpLink};
use std::alloc::Global;
use std::fs::File;
use std::io::{Read, Write};
use std::net::UdpSocket;
use std::sync::Wait;
use std::thread::Threads;
use std::time::Clock;

/// The files of a server, its socket, and where that is bound.
#[derive(Drop)]
pub struct Places {
    /// The file of the site's text.
    pub site: File,
    /// The file of the journal.
    pub journal: DeviceFile,
    /// The socket, from which datagrams come.
    pub listening: TimedSocket,
    /// The same socket, by which they go.
    pub socket: UdpSocket,
    /// The address and the port to which it is bound.
    pub place: String,
}

/// Does what the words say, with the site's text and the script from readers, and the journal in a file or none; the report
/// goes to the console. It is what `run` does over them, for each text, script and disk that they are supposed to have. The
/// ends come back with how it ended.
pub fn run_real<F: Read + Drop, T: Read + Drop, W: Write + Drop>(
    alloc: Global,
    words: &[String],
    site: F,
    script: T,
    journal: Option<DeviceFile>,
    console: W,
) -> (StdSource<F>, StdSource<T>, FileGround<W>, Status)
    ghost supposed: { RunEnds }
    ensures usage { (result.3 ≡ status.Usage) ↔ (command_of (map string_bytes words.now) ≡ None) }
    ensures runs { RunsReal (command_of (map string_bytes words.now)) supposed (bytes_of journal) result.0 result.1 result.2 result.3 }
{
    let mut site = StdSource::new(site);
    let mut script = StdSource::new(script);
    let device = FileGround::new(journal, console, None);
    let (device, ended) = run(alloc, words, &mut site, &mut script, device);
    (site, script, device, ended)
}

/// What a session over real ends did, where these told to the end: its report from the history on that its file held went out,
/// and at each moment a crash leaves that history and the events of the lines whose piece was sent by then.
pub fn sessions_are_told()
    ensures law { SessionsAreTold }
{}

/// Of two sessions, where the second finds what a crash may leave of the first: it goes on from there.
pub fn sessions_go_on()
    ensures law { SessionsGoOn }
{}

/// Serves the site of a file, with the journal of another, over a socket; what it says of where it listens goes to standard
/// error. `workers` is the runtime as that which starts threads. It is what `serve` does over them, for each text, disk and
/// list of datagrams that they are supposed to have. The ends come back with what it came to.
pub fn serve_real<'a, R: Threads + Wait + Sync + Clock, W: Write + Send + Drop>(
    rt: &'a HostRuntime,
    workers: &R,
    words: &[String],
    places: Places,
    console: W,
) -> (
    StdSource<File>,
    FileGround<W>,
    AnnouncingLink<'a, UdpLink>,
    Served,
)
    ghost supposed: { ServerEnds }
    ensures usage { (result.3.status ≡ status.Usage) ↔ (count_in (map string_bytes words.now) ≡ None) }
    ensures serves { ServesReal (λ link. link.inner.left) (λ link. link.inner.faults) supposed (count_in (map string_bytes words.now)) places.journal.bytes result.0 result.1 result.2 result.3 }
{
    let Places {
        site,
        journal,
        listening,
        socket,
        place,
    } = places;
    let mut site = StdSource::new(site);
    let heard = UdpLink::new(listening);
    let link = AnnouncingLink::new(heard, rt, place);
    let device = FileGround::new(Some(journal), console, Some(socket));
    let (device, link, served) = serve_over(workers, rt.alloc(), words, &mut site, device, link);
    (site, device, link, served)
}

/// What a server over its real ends did, where these told to the end: one order of what its callers did, from the history on that
/// its file held; what went out is a front of what that order owes, and a crash leaves what was told of.
pub fn servers_are_told<L: Link>()
    ensures law { ServersAreTold L.left L.faults }
{}

/// Of two servers, where the second finds what a crash may leave of the first: it goes on from there.
pub fn servers_go_on<L: Link>()
    ensures law { ServersGoOn L.left L.faults }
{}
