//! A server's ground and link, with what wraps them.

ghost use Rattle.std.specs.Prelude.{◌≡◌, ◌↔◌, ◌<◌, None, IfSome, map, string_bytes};
ghost use Rattle.bac_values.specs.Moments.{IsMoment};
ghost use Rattle.ending_link.specs.declared.flag.SharedFlag.{SharedFlag as Raised};
ghost use Rattle.ground_io.specs.Counts.{HasCause, Rose};
ghost use Rattle.ground_io.specs.Trace.{still};
ghost use Rattle.alarm_server.specs.declared.status.Status.TheVariants as status;
ghost use Rattle.alarm_server.specs.Dressed.{ServesDressed};
ghost use Rattle.alarm_server.specs.ServeWords.{count_in};

use crate::serve::{Served, serve};
use crate::waking_gate::WakingGate;
use crate::waking_link::WakingLink;
use ending_link::{AskedLink, EndingLink, NotingGround, SharedFlag};
use ground_io::{Ground, Source, SystemClock};
use std::alloc::Global;
use std::sync::Wait;
use std::thread::Threads;
use std::time::{Clock, Duration};

/// So many milliseconds a server's ticker and committer rest.
const REST: u64 = 5;

/// Serves over a ground and a link, by the system's clock. The link fails once the disk has, so that the server ends. The
/// ground and the link come back.
pub fn serve_over<
    R: Threads + Wait + Sync + Clock,
    S: Source,
    G: Ground + Send + Drop,
    L: AskedLink + Send + Drop,
>(rt: &R, alloc: Global, words: &[String], site: &mut S, device: G, link: L) -> (G, L, Served)
    // The words are of another form exactly where they are refused, and then nothing is read and nothing goes out.
    ensures usage { (result.2.status ≡ status.Usage) ↔ (count_in (map string_bytes words.now) ≡ None) }
    ensures unused { result.2.status ≡ status.Usage → (result.0 ≡ device) × (result.1 ≡ link) × (site.new ≡ site.old) }

    // It is what a server does over a ground that raises a flag where a call of the disk fails, and a link that ends by it,
    // whose inner ones are these.
    ensures serves { IfSome (count_in (map string_bytes words.now)) (λ count.
        ServesDressed Raised G.told G.size G.disk_faults G.emit_faults L.left L.faults IsMoment (still (S.left site.old) (S.left site.new)) count link result.1 device result.0 result.2) }

    // A fault comes only where its count rose, and so does a datagram that was sent and lost.
    ensures read_cause { HasCause (S.faults site.old) (S.faults site.new) (result.2.status ≡ status.ReadFault) }
    ensures disk_cause { result.2.status ≡ status.DiskFault → Rose (G.disk_faults device) (G.disk_faults result.0) }
    ensures no_disk_fault { result.2.status ≡ status.Done → G.disk_faults result.0 ≡ G.disk_faults device }
    ensures size { G.size result.0 ≡ G.size device }
    ensures emit_cause { HasCause (G.emit_faults device) (G.emit_faults result.0) (result.2.received < result.2.lost) }
    ensures no_emit_fault { result.2.lost ≡ 0 → G.emit_faults result.0 ≡ G.emit_faults device }
    ensures site_read { result.2.status ≡ status.Done → S.faults site.new ≡ S.faults site.old }
{
    let clock = SystemClock::new(rt);
    let gate = WakingGate::new(rt, Duration::from_millis(REST));
    let flag = SharedFlag::new();
    let device = NotingGround::new(device, &flag);
    let waking = WakingLink::new(link, &gate);
    let link = EndingLink::new(waking, &flag);
    let (device, link, served) = serve(rt, alloc, words, site, device, link, &clock, &gate);
    let waking = link.into_inner();
    (device.into_inner(), waking.into_inner(), served)
}
