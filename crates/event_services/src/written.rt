//! A notification whose octets serve all whom it tells.

ghost use Rattle.std.specs.Prelude.{◌≡◌, ◌≤◌, length, IfOk};
ghost use Rattle.bac_values.specs.Limits.{most_note_octets};
ghost use Rattle.event_services.specs.Notifications.{IsTold, told_to, written_notification};

use crate::Notification;
use crate::write_note::{write_before, write_tail};
use bac_values::NoMemory;
use std::alloc::Global;
use std::marker::Model;

/// A notification whose octets are written once for all that are told: they differ in the process identifier alone, which
/// comes first.
#[derive(Drop)]
pub struct WrittenNotification {
    facts: Notification,
    tail: Vec<u8>,
}

impl Model for WrittenNotification {
    ghost use Rattle.std.specs.Prelude.{◌≡◌};
    ghost use Rattle.event_services.specs.declared.notification.Notification.{Notification as Telling};
    ghost use Rattle.event_services.specs.NoteTails.{LeavesRoom, written_tail};

    ghost Value = { Telling };

    ghost view = { λ written. written.facts };

    ghost invariant = { λ written. record {
      tail : written.tail.items ≡ written_tail written.facts;
      room : LeavesRoom written.tail.items;
    } };
}

impl WrittenNotification {
    /// Writes a notification.
    pub fn new(alloc: Global, facts: Notification) -> Result<WrittenNotification, NoMemory>
        // The values are those of the event type, and each is one element.
        requires told { IsTold facts.event_type facts.values }
        ensures same { IfOk result (λ written. written ≡ facts) }
    {
        let tail = write_tail(alloc, &facts)?;
        Ok(WrittenNotification { facts, tail })
    }

    /// The parameters of the notification as it is told to a process, each in its one spelling. There are at most 1,024
    /// octets.
    #[tactic(auto, using(crate::proofs::NoteTailLaws::told_behind))]
    pub fn told_to(&self, alloc: Global, process: u32) -> Result<Vec<u8>, NoMemory>
        ensures written { IfOk result (λ octets. octets.items ≡ written_notification (told_to process self.now)) }
        ensures short { IfOk result (λ octets. length octets.items ≤ most_note_octets) }
    {
        write_before(alloc, process, &self.tail)
    }

    /// The same with its own process identifier.
    #[tactic(auto, using(crate::proofs::NoteTailLaws::own_behind))]
    pub fn octets(&self, alloc: Global) -> Result<Vec<u8>, NoMemory>
        ensures written { IfOk result (λ octets. octets.items ≡ written_notification self.now) }
        ensures short { IfOk result (λ octets. length octets.items ≤ most_note_octets) }
    {
        write_before(alloc, self.facts.process, &self.tail)
    }
}
