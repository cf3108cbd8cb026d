//! The journal of a site is opened: a press that goes on with it, and the core as it left it.

ghost use Rattle.std.specs.Prelude.{◌≡◌, ◌≢◌, ◌≤◌, ◌<◌, ◌-◌, ◌/◌, List, [], ◌∷◌, MatchResult, IfErr, IfOk, Ok, length};
ghost use Rattle.ground_io.specs.Counts.{HasCause};
ghost use Rattle.ground_io.specs.Trace.{Adds};
ghost use Rattle.ground_io.specs.declared.entry.Entry.TheVariants.{Synced};
ghost use Rattle.alarm_journal.specs.Opened.{content_in};
ghost use Rattle.alarm_journal.specs.Press.{Answers, IsBelow, IsRefusal, IsSmall, Reopens, ReopensSynced};
ghost use Rattle.alarm_journal.specs.declared.open_fault.OpenFault.TheVariants as refusals;
ghost use Rattle.alarm_core.specs.Allowed.{Represents};
ghost use Rattle.alarm_core.specs.Sites.{IsSite};
ghost use Rattle.alarm_core.specs.declared.event.Event.{Event as Happening};
ghost use Rattle.state_codec.specs.Damage.{ContentLeadsTo};
ghost use Rattle.state_codec.specs.Sizes.{most_text, need};
ghost use Rattle.state_codec.specs.Emission.{Emits};
ghost use Rattle.state_codec.specs.Keeping.{HoldsHistory, StoodFor, journal_of};
ghost use Rattle.state_codec.specs.Openings.{IsRefusedFor, open_fault_of};

use crate::{RecoverFault, need, recover};
use alarm_core::{Core, Site};
use alarm_journal::{OpenFault, Opened, Press};
use ground_io::Ground;
use std::alloc::Global;

// Why a journal isn't opened that no core is made of.
fn refusal_of(fault: RecoverFault) -> OpenFault
    ensures refusal { result ≡ open_fault_of fault }
{
    match fault {
        RecoverFault::Damaged { at } => OpenFault::Damaged { at },
        RecoverFault::NoMemory => OpenFault::NoMemory,
    }
}

/// Opens the journal of a site, whose text is given, and gives a press that goes on with it, the core as the journal left it,
/// and what was opened. A blank device is formatted. An `Err` gives the ground back.
pub fn open_journal<G: Ground>(
    alloc: Global,
    site: &Site,
    text: &[u8],
    device: G,
) -> Result<(Press<G>, Core, Opened), (G, OpenFault)>
    requires site { IsSite site.now }
    requires short { length text.now ≤ most_text }
    ensures site { IfOk result (λ opened. opened.1.site ≡ site.now) }

    // The octets opened to what is answered, and the core is the state that this leads to.
    ensures opened { IfOk result (λ opened. Answers (journal_of site.now text.now) (G.told device) (G.told opened.0.device) (Ok (content_in opened.2))) }
    ensures leads { IfOk result (λ opened. ContentLeadsTo site.now (content_in opened.2) opened.1) }

    // A device that is too small isn't opened, whether it tells its octets or not.
    ensures enough { IfOk result (λ _. need site.now (length text.now) ≤ G.size device) }

    // An area has room for the longest snapshot, and for what comes before the next one.
    ensures area { IfOk result (λ opened. (need site.now (length text.now) - 22 - length text.now) / 2 ≤ opened.0.layout.half) }

    // A history that the device's octets stood for is what the core represents and the press holds.
    ensures represents { (history : List Happening) → IfOk result (λ opened. StoodFor (journal_of site.now text.now) site.now history (G.told device) (G.told opened.0.device)
        → Represents opened.1 history) }
    ensures holds { (history : List Happening) → IfOk result (λ opened. StoodFor (journal_of site.now text.now) site.now history (G.told device) (G.told opened.0.device)
        → HoldsHistory (journal_of site.now text.now) site.now history opened.0.layout (G.told opened.0.device)) }

    // A crash at any moment from the first sync on, which an `Ok` has done, leaves what opens as the device did before; and
    // nothing goes out.
    ensures reopens { MatchResult result
        (λ opened. ReopensSynced (journal_of site.now text.now) (G.told device) (G.told opened.0.device))
        (λ lost. Reopens (journal_of site.now text.now) (G.told device) (G.told lost.0)) }
    ensures quiet { MatchResult result (λ opened. Emits (G.told device) (G.told opened.0.device) []) (λ lost. Emits (G.told device) (G.told lost.0) []) }

    // The journal is refused for what its octets are, or its size; a device that is refused was synced, and nothing else. It
    // is never refused where the octets stood for a history.
    ensures refused { IfErr result (λ lost. IsRefusal lost.1 → IsRefusedFor site.now text.now (G.told device) (G.told lost.0) lost.1) }
    ensures unchanged { IfErr result (λ lost. IsRefusal lost.1 → Adds (G.told device) (G.told lost.0) (Synced ∷ [])) }
    ensures small { IfErr result (λ lost. IsSmall (G.size device) lost.1) }
    ensures below { G.size device < need site.now (length text.now) → IfErr result (λ lost. IsBelow (G.size device) (need site.now (length text.now)) lost.1) }
    ensures stands { (history : List Happening) → IfErr result (λ lost. StoodFor (journal_of site.now text.now) site.now history (G.told device) (G.told lost.0)
        → IsRefusal lost.1 → ⊥) }
    ensures same { MatchResult result (λ opened. G.size opened.0.device ≡ G.size device) (λ lost. G.size lost.0 ≡ G.size device) }
    ensures emitted { MatchResult result (λ opened. G.emit_faults opened.0.device ≡ G.emit_faults device) (λ lost. G.emit_faults lost.0 ≡ G.emit_faults device) }
    ensures cause { MatchResult result
        (λ opened. G.disk_faults opened.0.device ≡ G.disk_faults device)
        (λ lost. HasCause (G.disk_faults device) (G.disk_faults lost.0) (lost.1 ≡ refusals.DiskFault)) }
    // A call of the device that failed is told as that, and not as want of memory.
    ensures unhidden { IfErr result (λ lost. lost.1 ≢ refusals.DiskFault → G.disk_faults lost.0 ≡ G.disk_faults device) }
{
    let size = need(site, text.len() as u64);
    let (press, opened) = match Press::open(alloc, device, text, size) {
        Ok(opened) => opened,
        Err((device, fault)) => return Err((device, fault)),
    };
    match recover(alloc, site, &opened) {
        Ok(core) => Ok((press, core, opened)),
        Err(fault) => Err((press.into_ground(), refusal_of(fault))),
    }
}
