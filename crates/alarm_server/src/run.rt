//! The top call of all commands but `serve`.

ghost use Rattle.std.specs.Prelude.{◌≡◌, ◌≢◌, ◌↔◌, ℕ, map, None, OnOk, IfErr, IsErrOf, string_bytes};
ghost use Rattle.ground_io.specs.Trace.{still};
ghost use Rattle.ground_io.specs.Counts.{HasCause, Rose};
ghost use Rattle.alarm_journal.specs.Press.{IsSmall};
ghost use Rattle.alarm_journal.specs.declared.open_fault.OpenFault.{OpenFault as Refusal};
ghost use Rattle.site_config.specs.declared.fault.SiteFault.{SiteFault};
ghost use Rattle.alarm_server.specs.Causes.{HasCauseInEither};
ghost use Rattle.alarm_server.specs.Commands.{command_of};
ghost use Rattle.alarm_server.specs.Promises.{promise_of};
ghost use Rattle.alarm_server.specs.Status.{IsFault, status_of};

use crate::command::{Command, read_command};
use crate::on_file::session;
use crate::ship::ship;
use crate::standing_by::stand_by;
use crate::status::Status;
use crate::trial::play;
use crate::workload::workload;
use ground_io::{Ground, Source};
use std::alloc::Global;

// Does what a command asks for.
fn carry_out<S: Source, T: Source, G: Ground>(
    alloc: Global,
    command: &Command,
    site: &mut S,
    script: &mut T,
    mut device: G,
) -> (G, Result<(), Status>)
    ensures ends { (promise_of (Some command.now)).ends (status_of result.1) (still (S.left site.old) (S.left site.new)) (still (T.left script.old) (T.left script.new)) (G.told device) (G.told result.0) }
    ensures to_end { OnOk result.1 ((promise_of (Some command.now)).to_end (T.left script.new)) }
    ensures accepted { OnOk result.1 ((promise_of (Some command.now)).accepts (still (S.left site.old) (S.left site.new)) (still (T.left script.old) (T.left script.new))) }
    ensures refused { (line : ℕ) → result.1 ≡ Err (Status.ScriptRefused line) → (promise_of (Some command.now)).refuses (still (T.left script.old) (T.left script.new)) line }
    ensures refuses_site { (fault : SiteFault) → result.1 ≡ Err (Status.SiteRefused fault) → (promise_of (Some command.now)).refuses_site (still (S.left site.old) (S.left site.new)) fault }
    ensures stops { result.1 ≡ Err Status.ReadFault → (promise_of (Some command.now)).stops
        ((script.new ≡ script.old) × Rose (S.faults site.old) (S.faults site.new))
        (Rose (T.faults script.old) (T.faults script.new))
        (still (S.left site.old) (S.left site.new)) (T.left script.old) (T.left script.new) (G.told device) (G.told result.0) }
    ensures site { (promise_of (Some command.now)).leaves_site (site.new ≡ site.old) }
    ensures unread { (promise_of (Some command.now)).leaves_script (still (S.left site.old) (S.left site.new)) (script.new ≡ script.old) }
    ensures keeps { (promise_of (Some command.now)).keeps (still (S.left site.old) (S.left site.new)) (still (T.left script.old) (T.left script.new)) (G.told device) (G.told result.0) }
    ensures opened { (promise_of (Some command.now)).opens ((script.new ≡ script.old) × Rose (S.faults site.old) (S.faults site.new)) (status_of result.1) (still (S.left site.old) (S.left site.new)) (still (T.left script.old) (T.left script.new)) (G.told device) (G.told result.0) }
    ensures small { (fault : Refusal) → result.1 ≡ Err (Status.JournalRefused fault) → IsSmall (G.size device) fault }
    ensures below { (promise_of (Some command.now)).refuses_small (G.size device) (still (S.left site.old) (S.left site.new)) (status_of result.1) }
    ensures unplayed { (fault : Refusal) → result.1 ≡ Err (Status.JournalRefused fault) → script.new ≡ script.old }
    ensures refuses_journal { (fault : Refusal) → result.1 ≡ Err (Status.JournalRefused fault) → (promise_of (Some command.now)).refuses_journal (still (S.left site.old) (S.left site.new)) (G.told device) (G.told result.0) fault }
    ensures fault { IfErr result.1 IsFault }
    ensures size { G.size result.0 ≡ G.size device }
    ensures disk { (promise_of (Some command.now)).leaves_disk (G.disk_faults result.0 ≡ G.disk_faults device) }
    ensures disk_cause { HasCause (G.disk_faults device) (G.disk_faults result.0) (IsErrOf result.1 Status.DiskFault) }
    ensures read_cause { HasCauseInEither (S.faults site.old) (S.faults site.new) (T.faults script.old) (T.faults script.new) (IsErrOf result.1 Status.ReadFault) }
    ensures emit_cause { HasCause (G.emit_faults device) (G.emit_faults result.0) (IsErrOf result.1 Status.EmitFault) }
    ensures no_fault { OnOk result.1 ((T.faults script.new ≡ T.faults script.old) × ((G.disk_faults result.0 ≡ G.disk_faults device) × (G.emit_faults result.0 ≡ G.emit_faults device))) }
    ensures site_read { OnOk result.1 (S.faults site.new ≡ S.faults site.old) }
    ensures unhidden { IfErr result.1 (λ fault. fault ≢ Status.DiskFault → G.disk_faults result.0 ≡ G.disk_faults device) }
{
    match command {
        Command::Trial { settings } => {
            let played = play(alloc, *settings, script, &mut device);
            (device, played)
        }
        Command::Session => session(alloc, site, script, device),
        Command::Workload { seed, count } => {
            let played = workload(alloc, *seed, *count, &mut device);
            (device, played)
        }
        Command::Ship { from } => ship(alloc, *from, site, device),
        Command::Standby => stand_by(alloc, site, script, device),
    }
}

/// Does what the words say, emits the report to the console, and gives the ground back.
///
/// `trial LOW HIGH DEADBAND DELAY NORMAL` puts one Integer Value on trial by the script, and emits a line for each of its
/// moves. `session SITE JOURNAL` opens the journal of the site whose text the site's source has, goes on from what it holds,
/// and plays the script; each event is on the disk before the piece of its line is emitted. `workload SEED COUNT` plays a
/// generated script to a generated site, in memory, and emits one line, which sums the report up. `ship SITE JOURNAL FROM`
/// opens the journal as a session does, and emits the packets by which a standby that has FROM events comes to have all of
/// it, and a last line. `standby SITE JOURNAL` opens a journal of its own as a session does, takes the packets of its script
/// into it, and emits a line for each, once what the line acknowledges is on the disk. Only these three touch the disk and
/// read the site's source; a workload reads nothing, and a ship no script.
pub fn run<S: Source, T: Source, G: Ground>(
    alloc: Global,
    words: &[String],
    site: &mut S,
    script: &mut T,
    device: G,
) -> (G, Status)
    // The words are of no form exactly where they are refused, and then nothing is read and nothing goes out.
    ensures usage { (result.1 ≡ Status.Usage) ↔ (command_of (map string_bytes words.now) ≡ None) }
    ensures unused { result.1 ≡ Status.Usage → result.0 ≡ device }

    // What isn't read is left as it was: the site's source but for a session, a ship and a standby, the script where nothing is
    // played from it.
    ensures site { (promise_of (command_of (map string_bytes words.now))).leaves_site (site.new ≡ site.old) }
    ensures unread { (promise_of (command_of (map string_bytes words.now))).leaves_script (still (S.left site.old) (S.left site.new)) (script.new ≡ script.old) }

    // What went out: the whole report, or a front of it, as the status says.
    ensures ends { (promise_of (command_of (map string_bytes words.now))).ends result.1 (still (S.left site.old) (S.left site.new)) (still (T.left script.old) (T.left script.new)) (G.told device) (G.told result.0) }

    // The events that were told of are numbered without a gap, behind the number that the first line tells.
    ensures numbered { (promise_of (command_of (map string_bytes words.now))).numbers (still (S.left site.old) (S.left site.new)) (still (T.left script.old) (T.left script.new)) (G.told device) (G.told result.0) }

    // With Done the script was read to its end, the site's text is a site, and each line is in the grammar: of what a command
    // reads.
    ensures to_end { result.1 ≡ Status.Done → (promise_of (command_of (map string_bytes words.now))).to_end (T.left script.new) }
    ensures accepted { result.1 ≡ Status.Done → (promise_of (command_of (map string_bytes words.now))).accepts (still (S.left site.old) (S.left site.new)) (still (T.left script.old) (T.left script.new)) }

    // The line that is refused is the first outside the grammar; the site's text that is refused has this fault.
    ensures refused { (line : ℕ) → result.1 ≡ Status.ScriptRefused line →
        (promise_of (command_of (map string_bytes words.now))).refuses (still (T.left script.old) (T.left script.new)) line }
    ensures refuses_site { (fault : SiteFault) → result.1 ≡ Status.SiteRefused fault →
        (promise_of (command_of (map string_bytes words.now))).refuses_site (still (S.left site.old) (S.left site.new)) fault }

    // With ReadFault of the script all of the report went out that the lines give whose line feed was read, and none of these
    // is refused; with one of the site nothing went out, and the script is as it was.
    ensures stops { result.1 ≡ Status.ReadFault → (promise_of (command_of (map string_bytes words.now))).stops
        ((script.new ≡ script.old) × Rose (S.faults site.old) (S.faults site.new))
        (Rose (T.faults script.old) (T.faults script.new))
        (still (S.left site.old) (S.left site.new)) (T.left script.old) (T.left script.new) (G.told device) (G.told result.0) }

    // A fault comes only where its count rose.
    ensures read_cause { HasCauseInEither (S.faults site.old) (S.faults site.new) (T.faults script.old) (T.faults script.new) (result.1 ≡ Status.ReadFault) }
    ensures emit_cause { HasCause (G.emit_faults device) (G.emit_faults result.0) (result.1 ≡ Status.EmitFault) }

    // A call of the disk that failed is told as that, and as nothing else.
    ensures disk_cause { HasCause (G.disk_faults device) (G.disk_faults result.0) (result.1 ≡ Status.DiskFault) }
    ensures unhidden { result.1 ≢ Status.DiskFault → G.disk_faults result.0 ≡ G.disk_faults device }

    // With Done no call has failed: none was made again and passed over.
    ensures no_fault { result.1 ≡ Status.Done → (T.faults script.new ≡ T.faults script.old) × ((G.disk_faults result.0 ≡ G.disk_faults device) × (G.emit_faults result.0 ≡ G.emit_faults device)) }
    ensures site_read { result.1 ≡ Status.Done → S.faults site.new ≡ S.faults site.old }

    // A crash at any moment from the opening's first sync on leaves, of each history that the device's octets stood for when
    // the session began, a history that begins with it and goes on with the events of the script's first lines: at least
    // those whose piece was emitted by then. Of what is shipped it leaves what opens as the device did; and of a standby a
    // history to which its leader's goes back, or, of packets that anybody sent and that bring no snapshot, one that goes on
    // from the one before; at least as long as each number that was acknowledged by then.
    ensures keeps { (promise_of (command_of (map string_bytes words.now))).keeps (still (S.left site.old) (S.left site.new)) (still (T.left script.old) (T.left script.new)) (G.told device) (G.told result.0) }

    // A session's or a standby's journal opened, its octets lead to a state, and the report goes on from that, whether a history
    // leads to it or not; or nothing went out, and what opens is what opened before, for want of memory too.
    ensures opened { (promise_of (command_of (map string_bytes words.now))).opens ((script.new ≡ script.old) × Rose (S.faults site.old) (S.faults site.new)) result.1 (still (S.left site.old) (S.left site.new)) (still (T.left script.old) (T.left script.new)) (G.told device) (G.told result.0) }

    // The journal is refused for what its octets are, and never where they stand for a history: it was synced, and nothing else
    // was done, and the script isn't read.
    ensures unplayed { (fault : Refusal) → result.1 ≡ Status.JournalRefused fault → script.new ≡ script.old }
    ensures refuses_journal { (fault : Refusal) → result.1 ≡ Status.JournalRefused fault →
        (promise_of (command_of (map string_bytes words.now))).refuses_journal (still (S.left site.old) (S.left site.new)) (G.told device) (G.told result.0) fault }

    // A device that is smaller than the journal on it has to be is refused as such, with its size, or fails.
    ensures small { (fault : Refusal) → result.1 ≡ Status.JournalRefused fault → IsSmall (G.size device) fault }
    ensures below { (promise_of (command_of (map string_bytes words.now))).refuses_small (G.size device) (still (S.left site.old) (S.left site.new)) result.1 }

    // A server's fault is none of these.
    ensures outside { result.1 ≢ Status.LinkFault }

    // All but a session, a ship and a standby leave the disk alone.
    ensures size { G.size result.0 ≡ G.size device }
    ensures disk { (promise_of (command_of (map string_bytes words.now))).leaves_disk (G.disk_faults result.0 ≡ G.disk_faults device) }
{
    let Some(command) = read_command(words) else {
        return (device, Status::Usage);
    };
    let (device, done) = carry_out(alloc, &command, site, script, device);
    match done {
        Ok(()) => (device, Status::Done),
        Err(status) => (device, status),
    }
}
