//! A journal is shipped: the packets by which a standby comes to have what it holds.

ghost use Rattle.std.specs.Prelude.{◌≡◌, ◌≢◌, ◌≤◌, ◌<◌, ◌+◌, ◌^◌, ℕ, List, length, [], ◌∷◌, Ok, Err, OnOk, IfErr, IfSome, IsErrOf, IsOk};
ghost use Rattle.ground_io.specs.Counts.{HasCause, Rose};
ghost use Rattle.ground_io.specs.Trace.{Adds, still};
ghost use Rattle.ground_io.specs.declared.entry.Entry.TheVariants.{Synced};
ghost use Rattle.bac_values.specs.declared.report.ReportLine.TheVariants as say;
ghost use Rattle.script_lines.specs.Report.{report_text};
ghost use Rattle.alarm_journal.specs.Press.{IsSmall};
ghost use Rattle.alarm_journal.specs.declared.open_fault.OpenFault.{OpenFault as Refusal};
ghost use Rattle.alarm_core.specs.Sites.{IsSite};
ghost use Rattle.site_config.specs.declared.fault.SiteFault.{SiteFault};
ghost use Rattle.site_config.specs.Sites.{site_of};
ghost use Rattle.state_codec.specs.Keeping.{journal_of};
ghost use Rattle.state_codec.specs.Openings.{IsRefusedFor};
ghost use Rattle.state_codec.specs.Sizes.{most_text, need};
ghost use Rattle.standby.specs.Reaches.{OffersAll};
ghost use Rattle.alarm_server.specs.Emission.{Sends};
ghost use Rattle.alarm_server.specs.OnFile.{RefusesFile};
ghost use Rattle.alarm_server.specs.Openings.{RefusesJournal, StandsForNone};
ghost use Rattle.alarm_server.specs.Shipping.{KeepsAlike, KeepsShipped, ShipsOnFile, ShipsOnSite, ship_report};
ghost use Rattle.alarm_server.specs.SmallDevices.{EndsSmall, RefusesSmall};
ghost use Rattle.alarm_server.specs.Status.{IsShipFault, IsShippedFault, status_of};

use crate::emission::{Unsent, emit};
use crate::on_file::open_site;
use crate::status::Status;
use alarm_core::Site;
use alarm_journal::images_open_once;
use bac_values::{Items, ReportLine};
use ground_io::{Ground, Source};
use standby::Leader;
use state_codec::open_journal;
use std::alloc::Global;

// Emits a packet.
fn ship_packet<G: Ground>(alloc: Global, device: &mut G, packet: Vec<u8>) -> Result<(), Unsent>
    ensures sends { Sends Adds report_text result (say.Packet packet.items ∷ []) (G.told device.old) (G.told device.new) }
    ensures size { G.size device.new ≡ G.size device.old }
    ensures disk { G.disk_faults device.new ≡ G.disk_faults device.old }
    ensures cause { HasCause (G.emit_faults device.old) (G.emit_faults device.new) (IsErrOf result Unsent.Lost) }
    ensures uncounted { OnOk result (G.emit_faults device.new ≡ G.emit_faults device.old) }
{
    let line = ReportLine::Packet {
        packet: Items::of(packet),
    };
    emit(alloc, device, &line)
}

// Emits how many packets were shipped, and how many events there are.
fn end_shipping<G: Ground>(
    alloc: Global,
    device: &mut G,
    packets: u64,
    events: u64,
) -> Result<(), Unsent>
    ensures sends { Sends Adds report_text result (say.ShipEnd packets events ∷ []) (G.told device.old) (G.told device.new) }
    ensures size { G.size device.new ≡ G.size device.old }
    ensures disk { G.disk_faults device.new ≡ G.disk_faults device.old }
    ensures cause { HasCause (G.emit_faults device.old) (G.emit_faults device.new) (IsErrOf result Unsent.Lost) }
    ensures uncounted { OnOk result (G.emit_faults device.new ≡ G.emit_faults device.old) }
{
    emit(alloc, device, &ReportLine::ShipEnd { packets, events })
}

// Emits all that a leader offers, and behind it how many packets these are and how many events there are.
fn ship_all<G: Ground>(
    alloc: Global,
    leader: &mut Leader,
    events: u64,
    device: &mut G,
) -> Result<(), Unsent>
    ensures sends { (packets : List (List ℕ)) → OffersAll leader.old packets → Sends Adds report_text result (ship_report packets events) (G.told device.old) (G.told device.new) }
    ensures size { G.size device.new ≡ G.size device.old }
    ensures disk { G.disk_faults device.new ≡ G.disk_faults device.old }
    ensures cause { HasCause (G.emit_faults device.old) (G.emit_faults device.new) (IsErrOf result Unsent.Lost) }
    ensures uncounted { OnOk result (G.emit_faults device.new ≡ G.emit_faults device.old) }
{
    leader.offers_all();
    let mut packets = 0;
    while let Some(packet) = leader.offer(alloc)? {
        leader.offers_all();
        ship_packet(alloc, device, packet)?;
        packets += 1;
    }
    end_shipping(alloc, device, packets, events)
}

// Opens the journal of a site, whose text is given, and ships it from a number of events on. The ground comes back.
fn ship_site<G: Ground>(
    alloc: Global,
    site: &Site,
    text: &[u8],
    from: u64,
    device: G,
) -> (G, Result<(), Status>)
    requires site { IsSite site.now }
    requires short { length text.now ≤ most_text }

    // What the journal opened to goes out, or nothing; and it opens as before.
    ensures ships { ShipsOnSite from text.now (Ok site.now) (status_of result.1) (G.told device) (G.told result.0) }
    ensures keeps { KeepsAlike (journal_of site.now text.now) (G.told device) (G.told result.0) }

    // The journal is refused for what its octets are; then it was synced, and nothing else was done.
    ensures refuses_journal { (fault : Refusal) → result.1 ≡ Err (Status.JournalRefused fault) → IsRefusedFor site.now text.now (G.told device) (G.told result.0) fault × Adds (G.told device) (G.told result.0) (Synced ∷ []) × StandsForNone (journal_of site.now text.now) site.now (G.told device) (G.told result.0) }
    ensures small { (fault : Refusal) → result.1 ≡ Err (Status.JournalRefused fault) → IsSmall (G.size device) fault }
    ensures below { G.size device < need site.now (length text.now) → EndsSmall (G.size device) (need site.now (length text.now)) (status_of result.1) }
    ensures fault { IfErr result.1 IsShippedFault }
    ensures size { G.size result.0 ≡ G.size device }
    ensures disk_cause { HasCause (G.disk_faults device) (G.disk_faults result.0) (IsErrOf result.1 Status.DiskFault) }
    ensures unhidden { IfErr result.1 (λ fault. fault ≢ Status.DiskFault → G.disk_faults result.0 ≡ G.disk_faults device) }
    ensures emit_cause { HasCause (G.emit_faults device) (G.emit_faults result.0) (IsErrOf result.1 Status.EmitFault) }
    ensures no_fault { OnOk result.1 ((G.disk_faults result.0 ≡ G.disk_faults device) × (G.emit_faults result.0 ≡ G.emit_faults device)) }
{
    images_open_once();
    let (press, core, opened) = match open_journal(alloc, site, text, device) {
        Ok(opened) => opened,
        Err((device, fault)) => return (device, Err(Status::from(fault))),
    };
    let mut device = press.into_ground();
    let events = core.events();
    let led = Leader::of_journal(alloc, &core, opened);
    drop(core);
    let mut leader = match led {
        Ok(leader) => leader,
        Err(_refused) => return (device, Err(Status::NoMemory)),
    };
    leader.hear(from);
    leader.offers_all();
    let shipped = ship_all(alloc, &mut leader, events, &mut device);
    drop(leader);
    match shipped {
        Ok(()) => (device, Ok(())),
        Err(unsent) => (device, Err(Status::from(unsent))),
    }
}

/// Ships the journal of the site whose text a source has, from a number of events on: its packets are emitted, one a line,
/// and behind them how many they are and how many events the journal has. Where the text is no site, nothing is done. The
/// ground comes back.
pub fn ship<S: Source, G: Ground>(
    alloc: Global,
    from: u64,
    site: &mut S,
    device: G,
) -> (G, Result<(), Status>)
    // What went out: the packets of what the journal opened to, and their number, or a front of these lines, as the status
    // says.
    ensures ships { ShipsOnFile from (still (S.left site.old) (S.left site.new)) (status_of result.1) (G.told device) (G.told result.0) }

    // A crash at any moment leaves what opens as the device did.
    ensures keeps { KeepsShipped (still (S.left site.old) (S.left site.new)) (G.told device) (G.told result.0) }

    // What is shipped has a site; the text that is refused is none, and the journal is refused for what its octets are.
    ensures accepted { OnOk result.1 (IfSome (still (S.left site.old) (S.left site.new)) (λ octets. IsOk (site_of octets))) }
    ensures refuses_site { (fault : SiteFault) → result.1 ≡ Err (Status.SiteRefused fault) → RefusesFile (still (S.left site.old) (S.left site.new)) fault }
    ensures refuses_journal { (fault : Refusal) → result.1 ≡ Err (Status.JournalRefused fault) → RefusesJournal (still (S.left site.old) (S.left site.new)) (G.told device) (G.told result.0) fault }

    // A device that is smaller than it must be is refused as such, or fails, whether it tells its octets or not.
    ensures small { (fault : Refusal) → result.1 ≡ Err (Status.JournalRefused fault) → IsSmall (G.size device) fault }
    ensures below { RefusesSmall (G.size device) (still (S.left site.old) (S.left site.new)) (status_of result.1) }

    // With ReadFault the site's source failed, and nothing was done.
    ensures stops { result.1 ≡ Err Status.ReadFault → Rose (S.faults site.old) (S.faults site.new) × Adds (G.told device) (G.told result.0) [] }
    ensures fault { IfErr result.1 IsShipFault }
    ensures size { G.size result.0 ≡ G.size device }
    ensures read_cause { HasCause (S.faults site.old) (S.faults site.new) (IsErrOf result.1 Status.ReadFault) }
    ensures disk_cause { HasCause (G.disk_faults device) (G.disk_faults result.0) (IsErrOf result.1 Status.DiskFault) }
    ensures unhidden { IfErr result.1 (λ fault. fault ≢ Status.DiskFault → G.disk_faults result.0 ≡ G.disk_faults device) }
    ensures emit_cause { HasCause (G.emit_faults device) (G.emit_faults result.0) (IsErrOf result.1 Status.EmitFault) }
    ensures no_fault { OnOk result.1 ((S.faults site.new ≡ S.faults site.old) × ((G.disk_faults result.0 ≡ G.disk_faults device) × (G.emit_faults result.0 ≡ G.emit_faults device))) }
{
    let (opened, text) = match open_site(alloc, site) {
        Ok(read) => read,
        Err(status) => return (device, Err(status)),
    };
    ship_site(alloc, &opened, text.as_slice(), from, device)
}
