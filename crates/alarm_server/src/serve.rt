//! The top call of `serve`.

ghost use Rattle.std.specs.Prelude.{◌≡◌, ◌↔◌, ◌<◌, ◌≤◌, None, IfSome, length, map, string_bytes};
ghost use Rattle.ground_io.specs.Counts.{HasCause, Rose};
ghost use Rattle.ground_io.specs.Trace.{still};
ghost use Rattle.alarm_core.specs.Sites.{IsSite};
ghost use Rattle.state_codec.specs.Sizes.{most_text};
ghost use Rattle.alarm_server.specs.ServedSites.{IsUnserved, LeavesLink, of_end, served_of};
ghost use Rattle.alarm_server.specs.Serving.{ServesFile};
ghost use Rattle.alarm_server.specs.ServingSteps.{ServesSite};
ghost use Rattle.alarm_server.specs.ServeWords.{count_in};

use crate::command::count_of;
use crate::on_file::open_site;
use crate::status::Status;
use alarm_core::Site;
use floor_desk::{Closed, Desk, End, serve_desk};
use ground_io::{Clock, Gate, Ground, Link, Source};
use std::alloc::Global;
use std::sync::Wait;
use std::thread::Threads;

/// What a server came to.
#[derive(Debug, Drop, PartialEq)]
pub struct Served {
    /// How it ended.
    pub status: Status,
    /// How many datagrams came.
    pub received: u64,
    /// How many events there are.
    pub events: u64,
    /// The number of the last event that is written.
    pub durable: u64,
    /// How many datagrams were lost: of those that came, and of those that were sent.
    pub lost: u64,
}

impl From<End> for Status {
    ghost from_gives = { λ end status. status ≡ of_end end };

    fn from(end: End) -> Status {
        match end {
            End::Done => Status::Done,
            End::DiskFault => Status::DiskFault,
            End::LinkFault => Status::LinkFault,
            End::NoMemory => Status::NoMemory,
        }
    }
}

impl Served {
    // What a desk came to that was served and closed.
    fn of(closed: Closed) -> Served
        ensures closed { result ≡ served_of closed }
    {
        Served {
            status: Status::from(closed.end),
            received: closed.received,
            events: closed.events,
            durable: closed.durable,
            lost: closed.lost,
        }
    }

    // No desk was opened.
    fn none(status: Status) -> Served
        ensures none { IsUnserved result status }
    {
        Served {
            status,
            received: 0,
            events: 0,
            durable: 0,
            lost: 0,
        }
    }
}

// Serves so many datagrams over a desk that is opened on the device, whose journal is that of a site with this text. The
// ground and the link come back.
fn serve_site<
    R: Threads + Wait + Sync,
    G: Ground + Send,
    L: Link + Send + Drop,
    K: Clock + Sync,
    W: Gate + Sync,
>(
    rt: &R,
    alloc: Global,
    site: &Site,
    text: &[u8],
    device: G,
    count: u32,
    link: L,
    clock: &K,
    gate: &W,
) -> (G, L, Served)
    requires site { IsSite site.now }
    requires short { length text.now ≤ most_text }
    ensures serves { ServesSite G.told G.size G.disk_faults G.emit_faults (K.shows clock.now) site.now text.now count link result.1 (L.left link) (L.left result.1) device result.0 result.2 }
    ensures link { LeavesLink (L.faults link) (L.faults result.1) result.2.status }
    ensures disk_cause { result.2.status ≡ Status.DiskFault → Rose (G.disk_faults device) (G.disk_faults result.0) }
    ensures no_disk_fault { result.2.status ≡ Status.Done → G.disk_faults result.0 ≡ G.disk_faults device }
    ensures size { G.size result.0 ≡ G.size device }
    ensures emit_cause { HasCause (G.emit_faults device) (G.emit_faults result.0) (result.2.received < result.2.lost) }
    ensures no_emit_fault { result.2.lost ≡ 0 → G.emit_faults result.0 ≡ G.emit_faults device }
{
    let (desk, pass) = match Desk::open(alloc, site, text, device) {
        Ok((desk, pass, _)) => (desk, pass),
        Err((device, fault)) => return (device, link, Served::none(Status::from(fault))),
    };
    let (device, link, closed) = serve_desk(rt, alloc, desk, pass, count, link, clock, gate);
    (device, link, Served::of(closed))
}

/// `serve SITE JOURNAL COUNT` opens a desk on the journal of the site whose text a source has, and serves so many datagrams
/// of a link: each is entered at a moment of the clock, time passes, and what is entered is written, and then what it owes is
/// sent. At the end all is written and sent, time passes once more, and the desk is closed. The ground and the link come
/// back.
pub fn serve<
    R: Threads + Wait + Sync,
    S: Source,
    G: Ground + Send,
    L: Link + Send + Drop,
    K: Clock + Sync,
    W: Gate + Sync,
>(
    rt: &R,
    alloc: Global,
    words: &[String],
    site: &mut S,
    device: G,
    link: L,
    clock: &K,
    gate: &W,
) -> (G, L, Served)
    // The words are of another form exactly where they are refused, and then nothing is read and nothing goes out.
    ensures usage { (result.2.status ≡ Status.Usage) ↔ (count_in (map string_bytes words.now) ≡ None) }
    ensures unused { result.2.status ≡ Status.Usage → (result.0 ≡ device) × (result.1 ≡ link) × (site.new ≡ site.old) }

    // It goes one of five ways: a desk was opened on the site whose text the source has, and served; or none was, and nothing
    // was sent.
    ensures serves { IfSome (count_in (map string_bytes words.now)) (λ count.
        ServesFile G.told G.size G.disk_faults G.emit_faults (K.shows clock.now) (still (S.left site.old) (S.left site.new)) count link result.1 (L.left link) (L.left result.1) device result.0 result.2) }

    // A fault comes only where its count rose, and so does a datagram that was sent and lost.
    ensures read_cause { HasCause (S.faults site.old) (S.faults site.new) (result.2.status ≡ Status.ReadFault) }
    ensures site_read { result.2.status ≡ Status.Done → S.faults site.new ≡ S.faults site.old }
    ensures link { LeavesLink (L.faults link) (L.faults result.1) result.2.status }
    ensures disk_cause { result.2.status ≡ Status.DiskFault → Rose (G.disk_faults device) (G.disk_faults result.0) }
    ensures no_disk_fault { result.2.status ≡ Status.Done → G.disk_faults result.0 ≡ G.disk_faults device }
    ensures size { G.size result.0 ≡ G.size device }
    ensures emit_cause { HasCause (G.emit_faults device) (G.emit_faults result.0) (result.2.received < result.2.lost) }
    ensures no_emit_fault { result.2.lost ≡ 0 → G.emit_faults result.0 ≡ G.emit_faults device }
{
    let Some(count) = count_of(words) else {
        return (device, link, Served::none(Status::Usage));
    };
    let (site, text) = match open_site(alloc, site) {
        Ok(read) => read,
        Err(status) => return (device, link, Served::none(status)),
    };
    serve_site(
        rt,
        alloc,
        &site,
        text.as_slice(),
        device,
        count,
        link,
        clock,
        gate,
    )
}
