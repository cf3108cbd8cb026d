//! What a journal holds becomes the core of its site: the state of its snapshot, or the first one, and then the events of
//! its records, one after the other.
ghost use Rattle.std.specs.Prelude.{◌≡◌, All, ◌≤◌, ◌<◌, ◌^◌, ◌+◌, ℕ, List, IfOk, OnErr, OnOk, Err, length};
ghost use Rattle.bac_tags.specs.Places.{IsSpelledAt};
ghost use Rattle.alarm_core.specs.declared.event.Event.{Event as Happening};
ghost use Rattle.alarm_core.specs.Allowed.{Represents};
ghost use Rattle.alarm_core.specs.CoreSteps.{next_state};
ghost use Rattle.alarm_core.specs.Sites.{IsSite};
ghost use Rattle.alarm_journal.specs.Opened.{EndsOnDevice, content_in, pieces, sum_of};
ghost use Rattle.state_codec.specs.Contents.{StandsForHistory};
ghost use Rattle.state_codec.specs.Damage.{BodiesLeadTo, ContentLeadsTo, IsDamagedAt, IsDamagedIn, IsDamagedRecord, IsDamagedSnapshot, LeadsTo, Tells};
ghost use Rattle.state_codec.specs.Spelled.{SpellsState};
ghost use Rattle.alarm_core.specs.State.{CoreState};
ghost use Rattle.alarm_core.specs.Following.{MayFollow};
ghost use Rattle.state_codec.specs.Records.{SpellsEvent};

use crate::{CodecFault, read_event, read_state};
use alarm_core::{Core, Event, Site, StepFault};
use alarm_journal::{Body, Opened};
use bac_values::NoMemory;
use std::alloc::Global;

/// Why no core is made of what a journal holds.
#[derive(Clone, Copy, Debug, PartialEq, Eq)]
pub enum RecoverFault {
    /// The journal is damaged.
    Damaged {
        /// The place on the device of a snapshot or a record that can't be there.
        at: u64,
    },
    /// Memory was refused.
    NoMemory,
}

impl From<NoMemory> for RecoverFault {
    ghost use Rattle.std.specs.Prelude.{◌≡◌};
    ghost use Rattle.state_codec.specs.declared.recovering.RecoverFault.TheVariants as faults;

    ghost from_gives = { λ _ fault. fault ≡ faults.NoMemory };

    fn from(_refused: NoMemory) -> RecoverFault {
        RecoverFault::NoMemory
    }
}

// The core takes an event, if that may follow.
fn follow(alloc: Global, core: &mut Core, event: &Event, at: usize) -> Result<(), CodecFault>
    ensures followed { OnOk result (MayFollow event.now core.old × (core.new ≡ next_state event.now core.old)) }
    ensures refused { (place : ℕ) → result ≡ Err (CodecFault.Malformed place) → (place ≡ at) × (MayFollow event.now core.old → ⊥) }
    ensures same { OnErr result (core.new ≡ core.old) }
{
    if !core.admits(event) {
        return Err(CodecFault::Malformed { at });
    }
    match core.take(alloc, event) {
        Ok(_outcome) => Ok(()),
        Err(StepFault::Full { .. }) => Err(CodecFault::Malformed { at }),
        Err(StepFault::NoMemory) => Err(CodecFault::NoMemory),
    }
}

// The event of the record at an offset of a body is taken. The answer is the offset behind the record.
fn follow_record(
    alloc: Global,
    core: &mut Core,
    body: &[u8],
    at: usize,
) -> Result<usize, CodecFault>
    requires within { at ≤ length body.now }
    ensures followed { IfOk result (λ end. (event : Happening) × IsSpelledAt SpellsEvent body.now at event end × MayFollow event core.old × (core.new ≡ next_state event core.old)) }
    ensures refused { (place : ℕ) → result ≡ Err (CodecFault.Malformed place) → (place ≡ at)
        × ((event : Happening) (end : ℕ) → IsSpelledAt SpellsEvent body.now at event end → MayFollow event core.old → ⊥) }
    ensures same { OnErr result (core.new ≡ core.old) }
{
    let (event, end) = read_event(alloc, body, at)?;
    follow(alloc, core, &event, at)?;
    Ok(end)
}

/// The events of some records are taken, one after the other. A fault has the offset of the first record that isn't one, or
/// whose event may not follow; of the core nothing is said then.
pub fn follow_records(alloc: Global, core: &mut Core, records: &[u8]) -> Result<(), CodecFault>
    ensures followed { OnOk result (LeadsTo core.old records.now core.new) }
    ensures damaged { (offset : ℕ) → result ≡ Err (CodecFault.Malformed offset) → IsDamagedIn core.old records.now offset }
{
    let mut at = 0;
    while at < records.len() {
        at = follow_record(alloc, core, records, at)?;
    }
    Ok(())
}

impl RecoverFault {
    // A fault in a body that lies at a place of the device.
    fn in_body(body: &Body, fault: CodecFault) -> RecoverFault
        requires fits { (offset : ℕ) → fault ≡ CodecFault.Malformed offset → body.now.place + offset < 2 ^ 64 }
        ensures place { (at : ℕ) → result ≡ RecoverFault.Damaged at → (offset : ℕ) × (fault ≡ CodecFault.Malformed offset) × (at ≡ body.now.place + offset) }
    {
        match fault {
            CodecFault::Malformed { at } => RecoverFault::Damaged {
                at: body.place + at as u64,
            },
            CodecFault::NoMemory => RecoverFault::NoMemory,
        }
    }
}

// The events of the records of some bodies are taken, which stand in the octets one after the other.
fn follow_bodies(
    alloc: Global,
    core: &mut Core,
    bodies: &[Body],
    octets: &[u8],
) -> Result<(), RecoverFault>
    requires whole { sum_of bodies.now ≡ length octets.now }
    requires places { All EndsOnDevice bodies.now }
    ensures followed { OnOk result (BodiesLeadTo core.old (pieces bodies.now octets.now) core.new) }
    ensures damaged { (at : ℕ) → result ≡ Err (RecoverFault.Damaged at) → IsDamagedRecord core.old bodies.now octets.now at }
{
    let mut rest = octets;
    for body in bodies {
        let (front, behind) = rest.split_at(body.length as usize);
        if let Err(fault) = follow_records(alloc, core, front) {
            return Err(RecoverFault::in_body(body, fault));
        }
        rest = behind;
    }
    Ok(())
}

// The core that a snapshot tells, or the first one of the site where there is none.
fn begin(alloc: Global, site: &Site, opened: &Opened) -> Result<Core, RecoverFault>
    requires site { IsSite site.now }
    ensures tells { IfOk result (λ core. Tells site.now opened.now.snapshot core) }
    ensures only { (state : CoreState) → SpellsState site.now opened.now.snapshot state → IfOk result (λ core. core ≡ state) }
    ensures site { IfOk result (λ core. core.site ≡ site.now) }
    ensures damaged { (at : ℕ) → result ≡ Err (RecoverFault.Damaged at) → IsDamagedSnapshot site.now opened.now at }
{
    if opened.snapshot.as_slice().is_empty() {
        return Ok(Core::start(alloc, site)?);
    }
    match read_state(alloc, site, opened.snapshot.as_slice()) {
        Ok(core) => Ok(core),
        Err(CodecFault::Malformed { .. }) => Err(RecoverFault::Damaged {
            at: opened.snapshot_place,
        }),
        Err(CodecFault::NoMemory) => Err(RecoverFault::NoMemory),
    }
}

/// The core of a site as its journal left it: the state of the snapshot, or the first one, and behind it each event of the
/// records. A history that the journal holds is what the core stands for. Damaged tells the first snapshot or record that
/// can't be there.
pub fn recover(alloc: Global, site: &Site, opened: &Opened) -> Result<Core, RecoverFault>
    requires site { IsSite site.now }
    requires whole { sum_of opened.now.bodies ≡ length opened.now.batches }
    requires places { All EndsOnDevice opened.now.bodies }
    ensures site { IfOk result (λ core. core.site ≡ site.now) }
    ensures leads { IfOk result (λ core. ContentLeadsTo site.now (content_in opened.now) core) }
    ensures represents { (history : List Happening) → StandsForHistory site.now (content_in opened.now) history → IfOk result (λ core. Represents core history) }
    ensures damaged { (at : ℕ) → result ≡ Err (RecoverFault.Damaged at) → IsDamagedAt site.now opened.now at }
    ensures stands { (history : List Happening) → StandsForHistory site.now (content_in opened.now) history → (at : ℕ) → result ≡ Err (RecoverFault.Damaged at) → ⊥ }
{
    let mut core = begin(alloc, site, opened)?;
    follow_bodies(
        alloc,
        &mut core,
        opened.bodies.as_slice(),
        opened.batches.as_slice(),
    )?;
    Ok(core)
}
