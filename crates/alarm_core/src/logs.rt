//! The event logs of a site, and what an event brings to them.

ghost use Rattle.std.specs.Prelude.{◌≡◌, ◌==◌, ◌∷◌, ◌++◌, All, List, IfOk, IsSome, IsTrue, OnOk, map, Vec as Records};
ghost use Rattle.std.specs.declared.alloc.Global.{Global};
ghost use Rattle.std.specs.List.{flat_map, list_any};
ghost use Rattle.std.specs.List.Sorted.{IsNonDecreasing, IsPermutation};
ghost use Rattle.std.specs.Option.{option_map, option_to_list};
ghost use Rattle.bac_values.specs.Identifier.{number_of_kind};
ghost use Rattle.bac_values.specs.declared.object_kind.ObjectKind.TheVariants.{EventLog as Logging};
ghost use Rattle.event_log.specs.History.{Call};
ghost use Rattle.object_table.specs.Rows.{is_object};
ghost use Rattle.alarm_core.specs.Logs.{call_of_change, call_of_value, call_of_what, kept_log, records_class, SiteLogState};
ghost use Rattle.alarm_core.specs.CoreSteps.{after_calls, first_kept};
ghost use Rattle.alarm_core.specs.Sites.{IsLogSite};
ghost use Rattle.alarm_core.specs.ViewSteps.{record_to};

use crate::view::Addressed;
use crate::{LogSite, Site};
use bac_values::{NoMemory, ObjectId, PropertyId, Stamp, Value, push};
use civil_stamp::LocalMoment;
use event_log::{EventLog, copy_of_log};
use notify_class::Class;
use object_table::{Change, What};
use std::alloc::Global;
use std::marker::Model;
use std::vec::IntoIter;

/// A record that a log is to be given: its local date and time, its hundredths of a second since 1970 at UTC, and the octets
/// of the notification.
#[derive(Drop)]
pub(crate) struct RecordToLog {
    pub(crate) stamp: Stamp,
    pub(crate) hundredths: u64,
    pub(crate) body: Vec<u8>,
}

impl Model for RecordToLog {
    ghost use Rattle.event_log.specs.History.{Call, Recorded};

    ghost Value = { Call };

    ghost view = { λ entry. Recorded (record { stamp = entry.stamp; hundredths = entry.hundredths; body = entry.body.items }) };
}

// Some instances, ascending.
fn ascending(alloc: Global, instances: &[u32]) -> Result<Vec<u32>, NoMemory>
    ensures ascending { IfOk result (λ sorted. IsNonDecreasing sorted.items) }
    ensures same { IfOk result (λ sorted. IsPermutation instances.now sorted.items) }
{
    let mut sorted = instances.to_vec(alloc)?;
    sorted.sort_unstable();
    Ok(sorted)
}

// Whether the instance of a class is among some that ascend: found by halving.
fn lists_class(instances: &[u32], class: &Class) -> bool
    requires ascending { IsNonDecreasing instances.now }
    ensures same { result ≡ list_any (λ instance. instance == class.now.instance) instances.now }
{
    instances.binary_search(&class.instance).is_ok()
}

/// A log of a site, and what it holds. The instances of its classes are there once more, ascending.
#[derive(Drop)]
pub struct SiteLog {
    site: LogSite,
    recorded: Vec<u32>,
    log: EventLog,
}

impl Model for SiteLog {
    ghost use Rattle.std.specs.Prelude.{◌≡◌};
    ghost use Rattle.std.specs.List.Sorted.{IsNonDecreasing, IsPermutation};
    ghost use Rattle.bac_values.specs.Identifier.{number_of_kind};
    ghost use Rattle.bac_values.specs.declared.object_kind.ObjectKind.TheVariants.{EventLog as Logging};
    ghost use Rattle.alarm_core.specs.Logs.{SiteLogState};

    ghost Value = { SiteLogState };

    ghost view = { λ kept. record { site = kept.site; log = kept.log } };

    ghost invariant = { λ kept. record {
      number : kept.site.object.number ≡ number_of_kind Logging;
      ascending : IsNonDecreasing kept.recorded.items;
      recorded : IsPermutation kept.site.classes kept.recorded.items;
    } };
}

impl SiteLog {
    /// A log of a site, at the start.
    pub(crate) fn first(alloc: Global, site: &LogSite) -> Result<SiteLog, NoMemory>
        requires listed { IsLogSite site.now }
        ensures first { IfOk result (λ kept. kept ≡ first_kept site.now) }
    {
        let log = EventLog::new(alloc, site.size, site.stop_when_full, site.enable)?;
        SiteLog::restored(alloc, site, log)
    }

    /// A log of a site, with what it holds.
    pub(crate) fn restored(
        alloc: Global,
        site: &LogSite,
        log: EventLog,
    ) -> Result<SiteLog, NoMemory>
        requires listed { IsLogSite site.now }
        ensures restored { IfOk result (λ kept. kept ≡ record { site = site.now; log = log }) }
    {
        let site = copy_of_log(alloc, site)?;
        let recorded = ascending(alloc, site.classes.as_slice())?;
        Ok(SiteLog {
            site,
            recorded,
            log,
        })
    }

    /// What the site says of it.
    pub(crate) fn site(&self) -> &LogSite
        ensures site { result.now ≡ self.now.site }
        ensures number { self.now.site.object.number ≡ number_of_kind Logging }
    {
        &self.site
    }

    /// What it holds.
    pub fn log(&self) -> &EventLog
        ensures log { result.now ≡ self.now.log }
    {
        &self.log
    }

    /// Whether it records the notifications of a class.
    pub(crate) fn records_class(&self, class: &Class) -> bool
        ensures same { result ≡ records_class self.now.site class.now }
    {
        lists_class(&self.recorded, class)
    }

    // The record that a notification gives it at a moment, if it records the class.
    fn record_of(
        &self,
        alloc: Global,
        addressed: &Addressed<'_>,
        at: &LocalMoment,
    ) -> Result<Option<RecordToLog>, NoMemory>
        ensures record { IfOk result (λ entry. option_to_list entry ≡ record_to at.now self.now.site addressed.now) }
    {
        if !self.records_class(addressed.class) {
            return Ok(None);
        }
        let body = addressed.facts.octets(alloc)?;
        Ok(Some(RecordToLog {
            stamp: at.stamp(),
            hundredths: at.moment() / 10,
            body,
        }))
    }

    // The records that some notifications give it at a moment.
    fn records_of(
        &self,
        alloc: Global,
        addressed: &[Addressed<'_>],
        at: &LocalMoment,
    ) -> Result<Vec<RecordToLog>, NoMemory>
        ensures records { IfOk result (λ entries. entries.items ≡ flat_map (record_to at.now self.now.site) addressed.now) }
    {
        let mut entries = Vec::new(alloc);
        for told in addressed {
            let entry = self.record_of(alloc, told, at)?;
            add_entry(&mut entries, entry)?;
        }
        Ok(entries)
    }

    /// Takes these records, one after the other. No memory is taken.
    pub(crate) fn enter(&mut self, entries: Vec<RecordToLog>)
        ensures log { self.new ≡ record self.old { log = after_calls entries.items self.old.log } }
    {
        for entry in entries {
            self.log.record(entry.stamp, entry.hundredths, entry.body);
        }
    }

    // Turns it on or off, or clears it.
    fn take(&mut self, property: u32, value: &Value)
        ensures log { self.new ≡ record self.old { log = after_calls (call_of_value property value.now) self.old.log } }
    {
        match value {
            Value::Bool(on) if property == PropertyId::ENABLE.0 => self.log.set_enabled(*on),
            Value::Unsigned(0) if property == PropertyId::RECORD_COUNT.0 => self.log.clear(),
            _ => {}
        }
    }

    fn take_what(&mut self, what: &What)
        ensures log { self.new ≡ record self.old { log = after_calls (call_of_what what.now) self.old.log } }
    {
        match what {
            What::Property { property, value } => self.take(property.0, value),
            What::FieldFault { .. } => {}
        }
    }

    /// Takes a change, if it is one of this log. No memory is taken.
    pub(crate) fn change(&mut self, change: &Change)
        ensures log { self.new ≡ record self.old { log = after_calls (call_of_change self.old.site change.now) self.old.log } }
    {
        if change.object == self.site.object {
            self.take_what(&change.what);
        }
    }
}

/// The logs of a site, at the start.
pub(crate) fn first_logs(alloc: Global, site: &Site) -> Result<Vec<SiteLog>, NoMemory>
    requires listed { All IsLogSite site.now.logs }
    ensures first { IfOk result (λ logs. logs.items ≡ map first_kept site.now.logs) }
{
    let mut logs = Vec::new(alloc);
    for listed in site.logs.as_slice() {
        push(&mut logs, SiteLog::first(alloc, listed)?)?;
    }
    Ok(logs)
}

fn is_log(kept: &SiteLog, object: ObjectId) -> bool
    ensures same { result ≡ is_object object kept.now.site.object }
    ensures logging { IsTrue result → object.number ≡ number_of_kind Logging }
{
    kept.site().object == object
}

/// The log with this identifier.
pub(crate) fn kept_log(logs: &[SiteLog], object: ObjectId) -> Option<&SiteLog>
    ensures found { option_map (λ kept. kept.now) result ≡ kept_log object logs.now }
    ensures logging { IsSome result → object.number ≡ number_of_kind Logging }
{
    logs.iter().find(|kept| is_log(kept, object))
}

fn add_entry(entries: &mut Vec<RecordToLog>, entry: Option<RecordToLog>) -> Result<(), NoMemory>
    ensures added { OnOk result (entries.new.items ≡ entries.old.items ++ option_to_list entry) }
{
    match entry {
        Some(entry) => push(entries, entry),
        None => Ok(()),
    }
}

/// The records that some notifications give each log at a moment.
pub(crate) fn records_of_all(
    alloc: Global,
    logs: &[SiteLog],
    addressed: &[Addressed<'_>],
    at: &LocalMoment,
) -> Result<Vec<Vec<RecordToLog>>, NoMemory>
    ensures records { IfOk result (λ lists. map (λ list. list.items) lists.items ≡ map (λ (kept : SiteLogState). flat_map (record_to at.now kept.site) addressed.now) logs.now) }
{
    let mut lists = Vec::new(alloc);
    for kept in logs {
        let entries = kept.records_of(alloc, addressed, at)?;
        push(&mut lists, entries)?;
    }
    Ok(lists)
}

// A log takes the next records.
fn enter_next(kept: &mut SiteLog, lists: &mut IntoIter<Vec<RecordToLog>>)
    ensures entered { (list : Records Call Global) (later : List (Records Call Global)) → lists.old.rest.items ≡ list ∷ later →
        (kept.new ≡ record kept.old { log = after_calls list.items kept.old.log }) × (lists.new.rest.items ≡ later) }
{
    if let Some(list) = lists.next() {
        kept.enter(list);
    }
}

/// Each log takes its records. No memory is taken.
pub(crate) fn enter_all(logs: &mut Vec<SiteLog>, entries: Vec<Vec<RecordToLog>>)
    ensures logs { (calls : SiteLogState → List Call) → map (λ list. list.items) entries.items ≡ map calls logs.old.items →
        logs.new.items ≡ map (λ (kept : SiteLogState). record kept { log = after_calls (calls kept) kept.log }) logs.old.items }
{
    let mut lists = entries.into_iter();
    for kept in logs.iter_mut() {
        enter_next(kept, &mut lists);
    }
}

/// A change comes to each log.
pub(crate) fn change_all(logs: &mut Vec<SiteLog>, change: &Change)
    ensures logs { logs.new.items ≡ map (λ (kept : SiteLogState). record kept { log = after_calls (call_of_change kept.site change.now) kept.log }) logs.old.items }
{
    for kept in logs.iter_mut() {
        kept.change(change);
    }
}
