//! A standby on the site of a file and a journal of its own, from both files to the last packet.

ghost use Rattle.std.specs.Prelude.{◌≡◌, ◌≢◌, ◌<◌, ◌≤◌, ⊤, ℕ, List, length, [], ◌∷◌, None, Ok, Err, OnOk, OnErr, IfErr, IfSome, IsErrOf};
ghost use Rattle.std.specs.Io.KnownBytes.{IsAtEnd};
ghost use Rattle.ground_io.specs.Counts.{HasCause, Rose};
ghost use Rattle.ground_io.specs.Trace.{Adds, WhereTold, still};
ghost use Rattle.ground_io.specs.declared.entry.Entry.TheVariants.{Synced};
ghost use Rattle.script_lines.specs.PacketLine.{packet_says};
ghost use Rattle.alarm_journal.specs.Press.{IsSmall};
ghost use Rattle.alarm_journal.specs.declared.open_fault.OpenFault.{OpenFault as Refusal};
ghost use Rattle.alarm_core.specs.declared.event.Event.{Event as Happening};
ghost use Rattle.alarm_core.specs.Sites.{IsSite};
ghost use Rattle.alarm_core.specs.State.{state_of};
ghost use Rattle.state_codec.specs.Emission.{Emits};
ghost use Rattle.state_codec.specs.Keeping.{StoodFor, journal_of};
ghost use Rattle.state_codec.specs.Openings.{IsRefusedFor};
ghost use Rattle.state_codec.specs.Sizes.{most_text, need};
ghost use Rattle.site_config.specs.declared.fault.SiteFault.{SiteFault};
ghost use Rattle.site_config.specs.Sites.{site_of};
ghost use Rattle.alarm_server.specs.Causes.{HasCauseInEither};
ghost use Rattle.alarm_server.specs.Following.{Follows, IsSent, LeavesFollower, Sender, StopsFollowing};
ghost use Rattle.alarm_server.specs.Keeping.{KeepsFromSync};
ghost use Rattle.alarm_server.specs.OnFile.{RefusesFile};
ghost use Rattle.alarm_server.specs.Openings.{RefusesJournal, StandsForNone};
ghost use Rattle.alarm_server.specs.Script.{refused_line};
ghost use Rattle.alarm_server.specs.SmallDevices.{EndsSmall, RefusesSmall};
ghost use Rattle.alarm_server.specs.StandingBy.{AcceptsPackets, FollowsOnFile, GoesOnFromFile, GoesOnFromSite, KeepsBehindFile, StopsStandingBy};
ghost use Rattle.alarm_server.specs.Status.{IsFault, IsSessionFault, status_of};

use crate::following::follow_packets;
use crate::on_file::open_site;
use crate::status::Status;
use alarm_core::Site;
use ground_io::{Ground, Source};
use state_codec::open_journal;
use std::alloc::Global;

/// Follows the packets of a script to a site, whose text is given, from what the journal on the device holds on, and goes on
/// with the journal. The ground comes back.
fn follow_site<T: Source, G: Ground>(
    alloc: Global,
    site: &Site,
    text: &[u8],
    script: &mut T,
    device: G,
) -> (G, Result<(), Status>)
    requires site { IsSite site.now }
    requires short { length text.now ≤ most_text }

    // Of each history that the device's octets stood for: the table's lines go on from its state; and of each sender of the
    // packets, what a crash may leave is what the follower may come to from there.
    ensures ends { (older : List Happening) → StoodFor (journal_of site.now text.now) site.now older (G.told device) (G.told result.0)
        → IfSome (still (T.left script.old) (T.left script.new)) (λ script. Follows Emits (status_of result.1) (state_of site.now older) script (G.told device) (G.told result.0)) }
    ensures keeps { (sender : Sender) (begun : List Happening) → StoodFor (journal_of site.now text.now) site.now begun (G.told device) (G.told result.0)
        → IfSome (still (T.left script.old) (T.left script.new)) (λ script. IsSent site.now sender begun script
        → KeepsFromSync (LeavesFollower (journal_of site.now text.now) site.now sender begun) (G.told device) (G.told result.0)) }
    ensures stops { (older : List Happening) → StoodFor (journal_of site.now text.now) site.now older (G.told device) (G.told result.0) → result.1 ≡ Err Status.ReadFault
        → WhereTold (T.left script.old) (T.left script.new) (λ text rest. StopsFollowing Emits (state_of site.now older) text rest (G.told device) (G.told result.0)) }
    ensures script_told { result.1 ≡ Err Status.ReadFault → WhereTold (T.left script.old) (T.left script.new) (λ text rest. ⊤) }

    // The journal's octets opened and lead to a state, from which the table's lines go on; or nothing went out, and what opens
    // is what opened before.
    ensures opened { IfSome (still (T.left script.old) (T.left script.new)) (λ script. GoesOnFromSite ⊥ (status_of result.1) text.now (Ok site.now) script (G.told device) (G.told result.0)) }

    // The journal is refused for what its octets are, and never where they stood for a history; then it was synced, nothing
    // else was done, and the script isn't read.
    ensures refuses_journal { (fault : Refusal) → result.1 ≡ Err (Status.JournalRefused fault) → IsRefusedFor site.now text.now (G.told device) (G.told result.0) fault × Adds (G.told device) (G.told result.0) (Synced ∷ []) × StandsForNone (journal_of site.now text.now) site.now (G.told device) (G.told result.0) }
    ensures small { (fault : Refusal) → result.1 ≡ Err (Status.JournalRefused fault) → IsSmall (G.size device) fault }
    ensures below { G.size device < need site.now (length text.now) → EndsSmall (G.size device) (need site.now (length text.now)) (status_of result.1) }
    ensures unplayed { (fault : Refusal) → result.1 ≡ Err (Status.JournalRefused fault) → script.new ≡ script.old }
    ensures stands { (history : List Happening) (fault : Refusal) → StoodFor (journal_of site.now text.now) site.now history (G.told device) (G.told result.0) → result.1 ≢ Err (Status.JournalRefused fault) }
    ensures to_end { OnOk result.1 (IsAtEnd (T.left script.new)) }
    ensures accepted { OnOk result.1 (IfSome (still (T.left script.old) (T.left script.new)) (λ text. refused_line packet_says text ≡ None)) }
    ensures refused { (line : ℕ) → result.1 ≡ Err (Status.ScriptRefused line) →
        IfSome (still (T.left script.old) (T.left script.new)) (λ text. refused_line packet_says text ≡ Some line) }
    ensures fault { IfErr result.1 IsSessionFault }
    ensures size { G.size result.0 ≡ G.size device }
    ensures read_cause { HasCause (T.faults script.old) (T.faults script.new) (IsErrOf result.1 Status.ReadFault) }
    ensures disk_cause { HasCause (G.disk_faults device) (G.disk_faults result.0) (IsErrOf result.1 Status.DiskFault) }
    ensures unhidden { IfErr result.1 (λ fault. fault ≢ Status.DiskFault → G.disk_faults result.0 ≡ G.disk_faults device) }
    ensures emit_cause { HasCause (G.emit_faults device) (G.emit_faults result.0) (IsErrOf result.1 Status.EmitFault) }
    ensures no_fault { OnOk result.1 ((T.faults script.new ≡ T.faults script.old) × ((G.disk_faults result.0 ≡ G.disk_faults device) × (G.emit_faults result.0 ≡ G.emit_faults device))) }
{
    let (press, core, _opened) = match open_journal(alloc, site, text, device) {
        Ok(opened) => opened,
        Err((device, fault)) => return (device, Err(Status::from(fault))),
    };
    follow_packets(alloc, site, press, core, script)
}

/// Follows the packets of a script to the site whose text a source has, from what its journal holds on. Where the text is no
/// site, the script isn't touched and nothing else is done. The ground comes back.
pub fn stand_by<S: Source, T: Source, G: Ground>(
    alloc: Global,
    site: &mut S,
    script: &mut T,
    device: G,
) -> (G, Result<(), Status>)
    // What went out: the table's lines from the state of a history of the journal's on, or a front of them, as the status says.
    ensures ends { FollowsOnFile (status_of result.1) (still (S.left site.old) (S.left site.new)) (still (T.left script.old) (T.left script.new)) (G.told device) (G.told result.0) }

    // A crash at any moment leaves a history to which the leader's goes back, or, of packets that anybody sent and that bring
    // no snapshot, one that goes on from the one before; and it has all that was acknowledged by then.
    ensures keeps { KeepsBehindFile (still (S.left site.old) (S.left site.new)) (still (T.left script.old) (T.left script.new)) (G.told device) (G.told result.0) }

    // The journal's octets opened and lead to a state, from which the table's lines go on; or nothing went out, and what opens
    // is what opened before.
    ensures opened { GoesOnFromFile ((script.new ≡ script.old) × Rose (S.faults site.old) (S.faults site.new)) (status_of result.1) (still (S.left site.old) (S.left site.new)) (still (T.left script.old) (T.left script.new)) (G.told device) (G.told result.0) }

    // A standby that took its script to the end has a site, and no line that is refused.
    ensures to_end { OnOk result.1 (IsAtEnd (T.left script.new)) }
    ensures accepted { OnOk result.1 (AcceptsPackets (still (S.left site.old) (S.left site.new)) (still (T.left script.old) (T.left script.new))) }

    // The line that is refused is the first outside the grammar; the text that is refused is no site; and the journal is
    // refused for what its octets are.
    ensures refused { (line : ℕ) → result.1 ≡ Err (Status.ScriptRefused line) →
        IfSome (still (T.left script.old) (T.left script.new)) (λ text. refused_line packet_says text ≡ Some line) }
    ensures refuses_site { (fault : SiteFault) → result.1 ≡ Err (Status.SiteRefused fault) → RefusesFile (still (S.left site.old) (S.left site.new)) fault }
    ensures refuses_journal { (fault : Refusal) → result.1 ≡ Err (Status.JournalRefused fault) → RefusesJournal (still (S.left site.old) (S.left site.new)) (G.told device) (G.told result.0) fault }

    // A device that is smaller than it must be is refused as such, or fails, whether it tells its octets or not.
    ensures small { (fault : Refusal) → result.1 ≡ Err (Status.JournalRefused fault) → IsSmall (G.size device) fault }
    ensures below { RefusesSmall (G.size device) (still (S.left site.old) (S.left site.new)) (status_of result.1) }
    ensures unplayed { (fault : Refusal) → result.1 ≡ Err (Status.JournalRefused fault) → script.new ≡ script.old }
    ensures unread { IfSome (still (S.left site.old) (S.left site.new)) (λ octets. OnErr (site_of octets) (script.new ≡ script.old)) }

    // With ReadFault either the site's source failed and nothing else was done, or the script's failed.
    ensures stops { result.1 ≡ Err Status.ReadFault → StopsStandingBy
        ((script.new ≡ script.old) × Rose (S.faults site.old) (S.faults site.new))
        (Rose (T.faults script.old) (T.faults script.new))
        (still (S.left site.old) (S.left site.new)) (T.left script.old) (T.left script.new) (G.told device) (G.told result.0) }
    ensures fault { IfErr result.1 IsFault }
    ensures size { G.size result.0 ≡ G.size device }
    ensures read_cause { HasCauseInEither (S.faults site.old) (S.faults site.new) (T.faults script.old) (T.faults script.new) (IsErrOf result.1 Status.ReadFault) }
    ensures disk_cause { HasCause (G.disk_faults device) (G.disk_faults result.0) (IsErrOf result.1 Status.DiskFault) }
    ensures unhidden { IfErr result.1 (λ fault. fault ≢ Status.DiskFault → G.disk_faults result.0 ≡ G.disk_faults device) }
    ensures emit_cause { HasCause (G.emit_faults device) (G.emit_faults result.0) (IsErrOf result.1 Status.EmitFault) }
    ensures no_fault { OnOk result.1 ((T.faults script.new ≡ T.faults script.old) × ((G.disk_faults result.0 ≡ G.disk_faults device) × (G.emit_faults result.0 ≡ G.emit_faults device))) }
    ensures site_read { OnOk result.1 (S.faults site.new ≡ S.faults site.old) }
{
    let (opened, text) = match open_site(alloc, site) {
        Ok(read) => read,
        Err(status) => return (device, Err(status)),
    };
    follow_site(alloc, &opened, text.as_slice(), script, device)
}
