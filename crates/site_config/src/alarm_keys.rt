//! The keys of an object with a class, and of an enrollment.

ghost use Rattle.std.specs.Prelude.{◌≡◌, ◌≤◌, [], IfOk, codes, option_map};
ghost use Rattle.toml.specs.Data.{get_member};
ghost use Rattle.toml.specs.View.{table_view, view};
ghost use Rattle.site_config.specs.AlarmKeys.{alarm_keys_of, no_alarm_keys, reference_beside};
ghost use Rattle.toml_items.specs.Answers.{Gives};
ghost use Rattle.toml_items.specs.Lists.{list_in};
ghost use Rattle.toml_items.specs.Members.{optional, or_else};
ghost use Rattle.toml_items.specs.Values.{text_in};
ghost use Rattle.site_config.specs.Values.{notify_in};

use crate::lists::texts_in;
use crate::values::{binary_value_in, notify_in};
use bac_values::{Items, ObjectId, Text};
use std::alloc::Global;
use toml::{Table, Value};
use toml_items::{
    ItemFault, member_at, optional_unsigned, three_flags_or_all, truth_or, unsigned_or, valid_value,
};

/// The alarm keys of an object of any kind with a class, and of an enrollment.
#[derive(Drop)]
pub struct AlarmKeys {
    /// Notify_Type: 0 is alarm, 1 is event.
    pub notify: u8,
    /// Event_Enable.
    pub enable: [bool; 3],
    /// Time_Delay.
    pub time_delay: u32,
    /// Time_Delay_Normal.
    pub time_delay_normal: Option<u32>,
    /// Event_Detection_Enable.
    pub detection: bool,
    /// Event_Algorithm_Inhibit.
    pub inhibit: bool,
    /// Event_Algorithm_Inhibit_Ref.
    pub inhibit_ref: Option<ObjectId>,
    /// Event_Message_Texts_Config: three texts, or none.
    pub texts: Items<Text>,
}

/// The Notify_Type at the key `notify`, or that of an alarm.
fn notify_or_alarm(alloc: Global, table: &Table) -> Result<u8, ItemFault>
    ensures answer { Gives ItemFault.NoMemory result (or_else 0 notify_in (codes "notify") (table_view table.now)) }
    ensures range { IfOk result (λ n. n ≤ 1) }
{
    match member_at(table, "notify") {
        Some(value) => valid_value(alloc, "notify", notify_in(value)),
        None => Ok(0),
    }
}

/// The binary value that a value names, where there is no `inhibit` beside it.
fn reference_beside(inhibit: Option<&Value>, value: &Value) -> Option<ObjectId>
    ensures reference { result ≡ reference_beside (option_map (λ v. view v.now) inhibit.entry) (view value.now) }
{
    match inhibit {
        Some(_) => None,
        None => binary_value_in(value),
    }
}

/// The binary value at the key `inhibit_ref`, if it is there.
fn inhibit_ref(alloc: Global, table: &Table) -> Result<Option<ObjectId>, ItemFault>
    ensures answer { let ms = table_view table.now in Gives ItemFault.NoMemory result (optional (reference_beside (get_member (codes "inhibit") ms)) (codes "inhibit_ref") ms) }
{
    let Some(value) = member_at(table, "inhibit_ref") else {
        return Ok(None);
    };
    let reference = reference_beside(member_at(table, "inhibit"), value);
    Ok(Some(valid_value(alloc, "inhibit_ref", reference)?))
}

/// The three texts at the key `texts`, or none.
fn texts_or_none(alloc: Global, table: &Table) -> Result<Items<Text>, ItemFault>
    ensures answer { Gives ItemFault.NoMemory result (or_else [] (list_in 3 3 text_in) (codes "texts") (table_view table.now)) }
{
    match member_at(table, "texts") {
        Some(value) => valid_value(alloc, "texts", texts_in(alloc, value, 3)?),
        None => Ok(Items::of(Vec::new(alloc))),
    }
}

/// The alarm keys of a table.
#[tactic(auto, unfolding(crate::specs::AlarmKeys::alarm_keys_of))]
pub fn alarm_keys_of(alloc: Global, table: &Table) -> Result<AlarmKeys, ItemFault>
    ensures answer { Gives ItemFault.NoMemory result (alarm_keys_of (table_view table.now)) }
    ensures notify { IfOk result (λ keys. keys.notify ≤ 1) }
{
    let notify = notify_or_alarm(alloc, table)?;
    let enable = three_flags_or_all(alloc, table, "enable")?;
    let time_delay = unsigned_or(alloc, table, "time_delay", 0, u32::MAX, 0)?;
    let time_delay_normal = optional_unsigned(alloc, table, "time_delay_normal", u32::MAX)?;
    let detection = truth_or(alloc, table, "detection", true)?;
    let inhibit = truth_or(alloc, table, "inhibit", false)?;
    let inhibit_ref = inhibit_ref(alloc, table)?;
    let texts = texts_or_none(alloc, table)?;
    Ok(AlarmKeys {
        notify,
        enable,
        time_delay,
        time_delay_normal,
        detection,
        inhibit,
        inhibit_ref,
        texts,
    })
}

/// Those of an object without a class.
pub fn no_alarm_keys(alloc: Global) -> AlarmKeys
    ensures none { result ≡ no_alarm_keys }
{
    AlarmKeys {
        notify: 0,
        enable: [false, false, false],
        time_delay: 0,
        time_delay_normal: None,
        detection: false,
        inhibit: false,
        inhibit_ref: None,
        texts: Items::of(Vec::new(alloc)),
    }
}
