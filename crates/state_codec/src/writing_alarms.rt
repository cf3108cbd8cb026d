//! The alarms of objects in octets.
ghost use Rattle.std.specs.Prelude.{◌≡◌, ◌++◌, OnOk};
ghost use Rattle.std.specs.List.{flat_map};
ghost use Rattle.std.specs.Option.{option_copied};
ghost use Rattle.alarm_core.specs.Subjects.{alarm_subjects};
ghost use Rattle.state_codec.specs.Snapshots.{written_alarm, written_cause, written_enrollment, written_last, written_run, written_stamp, written_subject};
ghost use Rattle.state_codec.specs.WritingSteps.{written_if_alarm};

use crate::writing::{put_flag, put_flags, put_long, put_word};
use alarm_core::{Core, EnrollmentSite};
use bac_values::{EventState, NoMemory, Stamp, push};
use enrollment::{Subject, subjects_of};
use event_machine::{Alarm, Run};
use std::alloc::Global;

/// What stands in place of a state's number where none was entered.
pub(crate) const NO_STATE: u8 = 255;

/// Appends three stamps.
fn put_stamps(out: &mut Vec<u8>, stamps: &[Stamp; 3]) -> Result<(), NoMemory>
    ensures written { OnOk result (out.new.items ≡ out.old.items ++ flat_map written_stamp stamps.now) }
{
    let [first, second, third] = *stamps;
    out.extend_from_slice(&first.octets)?;
    out.extend_from_slice(&second.octets)?;
    out.extend_from_slice(&third.octets)?;
    Ok(())
}

/// Appends the state that a transition entered, if it ever came.
fn put_last(out: &mut Vec<u8>, last: Option<EventState>) -> Result<(), NoMemory>
    ensures written { OnOk result (out.new.items ≡ out.old.items ++ written_last last) }
{
    match last {
        Some(state) => push(out, state.number()),
        None => push(out, NO_STATE),
    }
}

/// Appends the states that the transitions entered.
fn put_lasts(out: &mut Vec<u8>, lasts: &[Option<EventState>; 3]) -> Result<(), NoMemory>
    ensures written { OnOk result (out.new.items ≡ out.old.items ++ flat_map written_last lasts.now) }
{
    let [first, second, third] = *lasts;
    put_last(out, first)?;
    put_last(out, second)?;
    put_last(out, third)
}

/// Appends the place of the alarm value that was the cause, from 1; 0 is none.
fn put_cause(out: &mut Vec<u8>, cause: Option<u32>) -> Result<(), NoMemory>
    ensures written { OnOk result (out.new.items ≡ out.old.items ++ written_cause cause) }
{
    match cause {
        Some(place) => put_word(out, place.wrapping_add(1)),
        None => put_word(out, 0),
    }
}

/// Appends a run, if there is one.
fn put_run(out: &mut Vec<u8>, run: Option<Run>) -> Result<(), NoMemory>
    ensures written { OnOk result (out.new.items ≡ out.old.items ++ written_run run) }
{
    match run {
        Some(run) => {
            put_flag(out, true)?;
            put_long(out, run.start)?;
            put_word(out, run.key)
        }
        None => {
            put_flag(out, false)?;
            put_long(out, 0)?;
            put_word(out, 0)
        }
    }
}

/// Appends the runs of the rules of the state.
fn put_runs(out: &mut Vec<u8>, runs: &[Option<Run>; 3]) -> Result<(), NoMemory>
    ensures written { OnOk result (out.new.items ≡ out.old.items ++ flat_map written_run runs.now) }
{
    let [first, second, third] = *runs;
    put_run(out, first)?;
    put_run(out, second)?;
    put_run(out, third)
}

/// Appends an alarm.
fn put_alarm(out: &mut Vec<u8>, alarm: &Alarm) -> Result<(), NoMemory>
    ensures written { OnOk result (out.new.items ≡ out.old.items ++ written_alarm alarm.now) }
{
    push(out, alarm.state().number())?;
    put_flags(out, &alarm.acked())?;
    put_stamps(out, &alarm.stamps())?;
    put_lasts(out, &alarm.last_states())?;
    put_cause(out, alarm.cause())?;
    push(out, alarm.last_reliability().number())?;
    put_runs(out, &alarm.runs())
}

/// Appends the writable properties of an enrollment, where it is one.
fn put_enrollment(out: &mut Vec<u8>, enrollment: Option<&EnrollmentSite>) -> Result<(), NoMemory>
    ensures written { OnOk result (out.new.items ≡ out.old.items ++ written_enrollment (option_copied enrollment.entry)) }
{
    match enrollment {
        Some(site) => {
            put_flag(out, site.inhibit)?;
            put_flags(out, &site.enable)
        }
        None => Ok(()),
    }
}

/// Appends the alarm of an object, where it has a notification class.
fn put_subject(out: &mut Vec<u8>, core: &Core, subject: &Subject) -> Result<(), NoMemory>
    ensures written { OnOk result (out.new.items ≡ out.old.items ++ written_if_alarm core.now subject.now) }
{
    if subject.class.is_none() {
        return Ok(());
    }
    put_alarm(out, &core.alarm_of(subject.object))?;
    put_enrollment(out, core.enrollments().row(subject.object))
}

/// Appends the alarms of those of some objects that have a notification class.
fn put_subjects(out: &mut Vec<u8>, core: &Core, subjects: &[Subject]) -> Result<(), NoMemory>
    ensures written { OnOk result (out.new.items ≡ out.old.items ++ flat_map (written_if_alarm core.now) subjects.now) }
{
    for subject in subjects {
        put_subject(out, core, subject)?;
    }
    Ok(())
}

/// Appends the alarms of all objects that have one, by ascending identifier.
pub(crate) fn put_alarms(alloc: Global, out: &mut Vec<u8>, core: &Core) -> Result<(), NoMemory>
    ensures written { OnOk result (out.new.items ≡ out.old.items ++ flat_map (written_subject core.now) (alarm_subjects core.now.site)) }
{
    let site = core.site();
    let subjects = subjects_of(alloc, site.objects.as_slice(), site.enrollments.as_slice())?;
    put_subjects(out, core, &subjects)
}
