//! For how long a condition has to last.

ghost use Rattle.std.specs.Prelude.{◌≡◌, ◌≤◌, length};
ghost use Rattle.bac_values.specs.Limits.{most_listed_values};
ghost use Rattle.algorithm_rules.specs.Conditions.{delay_of};
ghost use Rattle.algorithm_rules.specs.Facts.{facts_of};

use crate::{Rule, Snapshot, Waiting};

/// The seconds for which a rule's condition must last.
pub fn delay(rule: &Rule, snapshot: &Snapshot<'_>) -> u32
    requires few { length snapshot.now.alarm_values.now ≤ most_listed_values }
    ensures delay { result ≡ delay_of rule.now (facts_of snapshot.now) }
{
    match rule.wait {
        Waiting::TimeDelay => snapshot.time_delay,
        Waiting::NormalDelay => snapshot.time_delay_normal.unwrap_or(snapshot.time_delay),
        Waiting::AtOnce => 0,
    }
}
