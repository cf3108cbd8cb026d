//! What the notification of a transition or of an acknowledgement says.

ghost use Rattle.std.specs.Prelude.{◌≡◌};
ghost use Rattle.event_services.specs.Notifications.{IsTold};
ghost use Rattle.note_maker.specs.EventTypes.{acknowledgement_type, transition_type};
ghost use Rattle.note_maker.specs.Shapes.{acknowledgement_notification, transition_notification};

use crate::Source;
use algorithm_rules::Algorithm;
use bac_values::{EventState, EventType, NotifyType, Stamp, Text};
use event_machine::Move;
use event_services::{EventValues, Notification};
use notify_class::Class;

fn transition_type(algorithm: Algorithm, made: Move) -> u8
    ensures number { result ≡ transition_type algorithm made }
{
    if made.by_fault {
        EventType::CHANGE_OF_RELIABILITY.0
    } else {
        algorithm.event_type()
    }
}

fn acknowledgement_type(algorithm: Algorithm, acknowledged: EventState) -> u8
    ensures number { result ≡ acknowledgement_type algorithm acknowledged }
{
    match acknowledged {
        EventState::Fault => EventType::CHANGE_OF_RELIABILITY.0,
        _ => algorithm.event_type(),
    }
}

/// The notification of a transition at the local date and time of its point, with what `values_of` tells of it and the
/// text of the transition, if there is one. It is told to no process yet: its process identifier is 0.
pub fn transition_notification(
    source: &Source,
    class: &Class,
    made: Move,
    stamp: Stamp,
    values: Option<EventValues>,
    text: Option<Text>,
) -> Notification
    ensures notification { result ≡ transition_notification source.now class.now made stamp values text }
{
    let place = made.to.transition().place();
    Notification {
        process: 0,
        device: source.device,
        object: source.object,
        stamp,
        class: class.instance,
        priority: class.priority[place],
        event_type: transition_type(source.algorithm, made),
        text,
        notify: source.notify,
        ack_required: Some(class.ack_required[place]),
        from: Some(made.from),
        to: made.to,
        values,
    }
}

/// The notification that a state was acknowledged, at the local date and time of the acknowledgement. The state is the
/// one that the request named. It is told to no process yet: its process identifier is 0. It has no message text.
pub fn acknowledgement_notification(
    source: &Source,
    class: &Class,
    acknowledged: EventState,
    stamp: Stamp,
) -> Notification
    ensures notification { result ≡ acknowledgement_notification source.now class.now acknowledged stamp }
    ensures told { IsTold result.event_type result.values }
{
    Notification {
        process: 0,
        device: source.device,
        object: source.object,
        stamp,
        class: class.instance,
        priority: class.priority[acknowledged.transition().place()],
        event_type: acknowledgement_type(source.algorithm, acknowledged),
        text: None,
        notify: NotifyType::ACK_NOTIFICATION.0,
        ack_required: None,
        from: None,
        to: acknowledged,
        values: None,
    }
}
