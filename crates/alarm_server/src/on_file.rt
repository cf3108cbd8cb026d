//! A session on the site of a file and its journal, from both files to the last line.

ghost use Rattle.std.specs.Prelude.{◌≡◌, ◌≢◌, ◌<◌, ◌≤◌, ⊤, ℕ, List, length, [], ◌∷◌, None, Ok, Err, OnOk, OnErr, IfErr, IfOk, IfSome, IsErrOf};
ghost use Rattle.std.specs.Io.KnownBytes.{IsAtEnd};
ghost use Rattle.ground_io.specs.Counts.{HasCause, Rose};
ghost use Rattle.ground_io.specs.Trace.{Adds, WhereTold, still};
ghost use Rattle.ground_io.specs.declared.entry.Entry.TheVariants.{Synced};
ghost use Rattle.script_lines.specs.declared.line.Grammar.TheVariants.{Session};
ghost use Rattle.script_lines.specs.Line.{line_says};
ghost use Rattle.alarm_journal.specs.Press.{IsSmall};
ghost use Rattle.alarm_journal.specs.declared.open_fault.OpenFault.{OpenFault as Refusal};
ghost use Rattle.alarm_core.specs.declared.event.Event.{Event as Happening};
ghost use Rattle.alarm_core.specs.Sites.{IsSite};
ghost use Rattle.script_lines.specs.Script.{lines_of};
ghost use Rattle.state_codec.specs.Sizes.{most_text, need};
ghost use Rattle.state_codec.specs.Keeping.{StoodFor, journal_of};
ghost use Rattle.alarm_server.specs.Keeping.{KeepsOpened};
ghost use Rattle.state_codec.specs.Openings.{IsRefusedFor};
ghost use Rattle.alarm_server.specs.Openings.{OpensOnFile, OpensOnSite, RefusesJournal, StandsForNone};
ghost use Rattle.site_config.specs.declared.fault.SiteFault.{SiteFault};
ghost use Rattle.site_config.specs.Sites.{site_of};
ghost use Rattle.alarm_server.specs.Causes.{HasCauseInEither};
ghost use Rattle.state_codec.specs.Emission.{Emits};
ghost use Rattle.alarm_server.specs.Emission.{Ends};
ghost use Rattle.alarm_server.specs.OnFile.{AcceptsOnFile, EndsOnFile, KeepsOnFile, RefusesFile, StopsOnFile};
ghost use Rattle.alarm_server.specs.Report.{front_pieces, report_of};
ghost use Rattle.alarm_server.specs.SmallDevices.{EndsSmall, RefusesSmall};
ghost use Rattle.alarm_server.specs.Script.{refused_line, spelled_in};
ghost use Rattle.alarm_server.specs.Pieces.{piece_text};
ghost use Rattle.alarm_server.specs.Status.{IsFault, IsSessionFault, IsSiteFault, status_of};
ghost use Rattle.alarm_server.specs.Stopping.{StopsReading};

use crate::session::play_session;
use crate::status::Status;
use crate::text::read_text;
use alarm_core::Site;
use ground_io::{Ground, Source};
use site_config::read_site;
use state_codec::open_journal;
use std::alloc::Global;

// The site whose text a source has, with the text.
pub(crate) fn open_site<S: Source>(alloc: Global, source: &mut S) -> Result<(Site, Vec<u8>), Status>
    ensures site { IfOk result (λ read. IfSome (still (S.left source.old) (S.left source.new)) (λ octets. (site_of octets ≡ Ok read.0) × (octets ≡ read.1.items))) }
    ensures keeps { IfOk result (λ read. IsSite read.0) }
    ensures short { IfOk result (λ read. length read.1.items ≤ most_text) }
    ensures refused { (fault : SiteFault) → result ≡ Err (Status.SiteRefused fault) → RefusesFile (still (S.left source.old) (S.left source.new)) fault }
    ensures fault { IfErr result IsSiteFault }
    ensures cause { HasCause (S.faults source.old) (S.faults source.new) (IsErrOf result Status.ReadFault) }
    ensures uncounted { OnOk result (S.faults source.new ≡ S.faults source.old) }
{
    let text = read_text(alloc, source)?;
    let site = read_site(alloc, text.as_slice())?;
    Ok((site, text))
}

/// Plays a script to a site, whose text is given, from what the journal on the device holds on, and goes on with the
/// journal. The ground comes back.
fn play_site<T: Source, G: Ground>(
    alloc: Global,
    site: &Site,
    text: &[u8],
    script: &mut T,
    device: G,
) -> (G, Result<(), Status>)
    requires site { IsSite site.now }
    requires short { length text.now ≤ most_text }

    // Of each history that the device's octets stood for: the report goes on from it, and a crash at any moment leaves it
    // with the events of some lines.
    ensures ends { (history : List Happening) → StoodFor (journal_of site.now text.now) site.now history (G.told device) (G.told result.0) → IfSome (still (T.left script.old) (T.left script.new)) (λ text.
        Ends Emits piece_text (status_of result.1) (report_of site.now history text) (G.told device) (G.told result.0)) }
    ensures keeps { (history : List Happening) → StoodFor (journal_of site.now text.now) site.now history (G.told device) (G.told result.0) → IfSome (still (T.left script.old) (T.left script.new)) (λ script.
        KeepsOpened (journal_of site.now text.now) site.now history (spelled_in (line_says Session) 0 (lines_of script)) 1 (G.told device) (G.told result.0)) }
    ensures stops { (history : List Happening) → StoodFor (journal_of site.now text.now) site.now history (G.told device) (G.told result.0) → result.1 ≡ Err Status.ReadFault → WhereTold (T.left script.old) (T.left script.new)
        (λ text rest. StopsReading Emits piece_text (front_pieces site.now history) (line_says Session) text rest (G.told device) (G.told result.0)) }
    ensures script_told { result.1 ≡ Err Status.ReadFault → WhereTold (T.left script.old) (T.left script.new) (λ text rest. ⊤) }

    // The journal's octets opened and lead to a state, from which the report goes on; or nothing went out, and what opens is
    // what opened before.
    ensures opened { IfSome (still (T.left script.old) (T.left script.new)) (λ script. OpensOnSite ⊥ text.now (Ok site.now) (status_of result.1) script (G.told device) (G.told result.0)) }

    // The journal is refused for what its octets are, and never where they stood for a history; then it was synced, nothing
    // else was done, and the script isn't read.
    ensures refuses_journal { (fault : Refusal) → result.1 ≡ Err (Status.JournalRefused fault) → IsRefusedFor site.now text.now (G.told device) (G.told result.0) fault × Adds (G.told device) (G.told result.0) (Synced ∷ []) × StandsForNone (journal_of site.now text.now) site.now (G.told device) (G.told result.0) }
    ensures small { (fault : Refusal) → result.1 ≡ Err (Status.JournalRefused fault) → IsSmall (G.size device) fault }
    ensures below { G.size device < need site.now (length text.now) → EndsSmall (G.size device) (need site.now (length text.now)) (status_of result.1) }
    ensures unplayed { (fault : Refusal) → result.1 ≡ Err (Status.JournalRefused fault) → script.new ≡ script.old }
    ensures to_end { OnOk result.1 (IsAtEnd (T.left script.new)) }
    ensures accepted { OnOk result.1 (IfSome (still (T.left script.old) (T.left script.new)) (λ text. refused_line (line_says Session) text ≡ None)) }
    ensures refused { (line : ℕ) → result.1 ≡ Err (Status.ScriptRefused line) →
        IfSome (still (T.left script.old) (T.left script.new)) (λ text. refused_line (line_says Session) text ≡ Some line) }
    ensures fault { IfErr result.1 IsSessionFault }
    ensures size { G.size result.0 ≡ G.size device }
    ensures read_cause { HasCause (T.faults script.old) (T.faults script.new) (IsErrOf result.1 Status.ReadFault) }
    ensures disk_cause { HasCause (G.disk_faults device) (G.disk_faults result.0) (IsErrOf result.1 Status.DiskFault) }
    ensures unhidden { IfErr result.1 (λ fault. fault ≢ Status.DiskFault → G.disk_faults result.0 ≡ G.disk_faults device) }
    ensures emit_cause { HasCause (G.emit_faults device) (G.emit_faults result.0) (IsErrOf result.1 Status.EmitFault) }
    ensures no_fault { OnOk result.1 ((T.faults script.new ≡ T.faults script.old) × ((G.disk_faults result.0 ≡ G.disk_faults device) × (G.emit_faults result.0 ≡ G.emit_faults device))) }
{
    let (press, mut core, _opened) = match open_journal(alloc, site, text, device) {
        Ok(opened) => opened,
        Err((device, fault)) => return (device, Err(Status::from(fault))),
    };
    let (device, played) = play_session(alloc, press, &mut core, script);
    drop(core);
    match played {
        Ok(_tally) => (device, Ok(())),
        Err(status) => (device, Err(status)),
    }
}

/// Plays a script to the site whose text a source has, from what its journal holds on. Where the text is no site, the
/// script isn't touched and nothing else is done. The ground comes back.
pub fn session<S: Source, T: Source, G: Ground>(
    alloc: Global,
    site: &mut S,
    script: &mut T,
    device: G,
) -> (G, Result<(), Status>)
    // What went out: the whole report from a history of the journal's on, or a front of it, as the status says.
    ensures ends { EndsOnFile Emits (status_of result.1) (still (S.left site.old) (S.left site.new)) (still (T.left script.old) (T.left script.new)) (G.told device) (G.told result.0) }

    // A crash at any moment leaves the history and the events of some lines: of each at least whose piece went out.
    ensures keeps { KeepsOnFile (still (S.left site.old) (S.left site.new)) (still (T.left script.old) (T.left script.new)) (G.told device) (G.told result.0) }

    // The journal's octets opened and lead to a state, from which the report goes on; or nothing went out, and what opens is
    // what opened before.
    ensures opened { OpensOnFile ((script.new ≡ script.old) × Rose (S.faults site.old) (S.faults site.new)) (still (S.left site.old) (S.left site.new)) (status_of result.1) (still (T.left script.old) (T.left script.new)) (G.told device) (G.told result.0) }

    // A session that is played to its end has a site, and no line that is refused.
    ensures to_end { OnOk result.1 (IsAtEnd (T.left script.new)) }
    ensures accepted { OnOk result.1 (AcceptsOnFile (still (S.left site.old) (S.left site.new)) (still (T.left script.old) (T.left script.new))) }

    // The line that is refused is the first outside the grammar; the text that is refused is no site; and the journal is
    // refused for what its octets are.
    ensures refused { (line : ℕ) → result.1 ≡ Err (Status.ScriptRefused line) →
        IfSome (still (T.left script.old) (T.left script.new)) (λ text. refused_line (line_says Session) text ≡ Some line) }
    ensures refuses_site { (fault : SiteFault) → result.1 ≡ Err (Status.SiteRefused fault) → RefusesFile (still (S.left site.old) (S.left site.new)) fault }
    ensures refuses_journal { (fault : Refusal) → result.1 ≡ Err (Status.JournalRefused fault) → RefusesJournal (still (S.left site.old) (S.left site.new)) (G.told device) (G.told result.0) fault }

    // A device that is smaller than it must be is refused as such, or fails, whether it tells its octets or not.
    ensures small { (fault : Refusal) → result.1 ≡ Err (Status.JournalRefused fault) → IsSmall (G.size device) fault }
    ensures below { RefusesSmall (G.size device) (still (S.left site.old) (S.left site.new)) (status_of result.1) }
    ensures unplayed { (fault : Refusal) → result.1 ≡ Err (Status.JournalRefused fault) → script.new ≡ script.old }
    ensures unread { IfSome (still (S.left site.old) (S.left site.new)) (λ octets. OnErr (site_of octets) (script.new ≡ script.old)) }

    // With ReadFault either the site's source failed and nothing else was done, or the script's failed.
    ensures stops { result.1 ≡ Err Status.ReadFault → StopsOnFile Emits
        ((script.new ≡ script.old) × Rose (S.faults site.old) (S.faults site.new))
        (Rose (T.faults script.old) (T.faults script.new))
        (still (S.left site.old) (S.left site.new)) (T.left script.old) (T.left script.new) (G.told device) (G.told result.0) }
    ensures fault { IfErr result.1 IsFault }
    ensures size { G.size result.0 ≡ G.size device }
    ensures read_cause { HasCauseInEither (S.faults site.old) (S.faults site.new) (T.faults script.old) (T.faults script.new) (IsErrOf result.1 Status.ReadFault) }
    ensures disk_cause { HasCause (G.disk_faults device) (G.disk_faults result.0) (IsErrOf result.1 Status.DiskFault) }
    ensures unhidden { IfErr result.1 (λ fault. fault ≢ Status.DiskFault → G.disk_faults result.0 ≡ G.disk_faults device) }
    ensures emit_cause { HasCause (G.emit_faults device) (G.emit_faults result.0) (IsErrOf result.1 Status.EmitFault) }
    ensures no_fault { OnOk result.1 ((T.faults script.new ≡ T.faults script.old) × ((G.disk_faults result.0 ≡ G.disk_faults device) × (G.emit_faults result.0 ≡ G.emit_faults device))) }
    ensures site_read { OnOk result.1 (S.faults site.new ≡ S.faults site.old) }
{
    let (opened, text) = match open_site(alloc, site) {
        Ok(read) => read,
        Err(status) => return (device, Err(status)),
    };
    play_site(alloc, &opened, text.as_slice(), script, device)
}
