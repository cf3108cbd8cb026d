// The standard's numbers, from tables that were written out by hand beside the code.

use crate::comparing::same;
use bac_values::*;

#[test]
fn properties_have_their_numbers(rt: HostRuntime) {
    for (property, number) in [
        (PropertyId::OBJECT_IDENTIFIER, 75),
        (PropertyId::OBJECT_NAME, 77),
        (PropertyId::OBJECT_TYPE, 79),
        (PropertyId::PRESENT_VALUE, 85),
        (PropertyId::STATUS_FLAGS, 111),
        (PropertyId::EVENT_STATE, 36),
        (PropertyId::RELIABILITY, 103),
        (PropertyId::OUT_OF_SERVICE, 81),
        (PropertyId::RELIABILITY_EVALUATION_INHIBIT, 357),
        (PropertyId::NUMBER_OF_STATES, 74),
        (PropertyId::TIME_DELAY, 113),
        (PropertyId::TIME_DELAY_NORMAL, 356),
        (PropertyId::HIGH_LIMIT, 45),
        (PropertyId::LOW_LIMIT, 59),
        (PropertyId::DEADBAND, 25),
        (PropertyId::LIMIT_ENABLE, 52),
        (PropertyId::ALARM_VALUE, 6),
        (PropertyId::ALARM_VALUES, 7),
        (PropertyId::FAULT_VALUES, 39),
        (PropertyId::EVENT_ENABLE, 35),
        (PropertyId::EVENT_ALGORITHM_INHIBIT, 354),
        (PropertyId::ACKED_TRANSITIONS, 0),
        (PropertyId::NOTIFY_TYPE, 72),
        (PropertyId::EVENT_DETECTION_ENABLE, 353),
        (PropertyId::NOTIFICATION_CLASS, 17),
        (PropertyId::EVENT_TIME_STAMPS, 130),
        (PropertyId::EVENT_TYPE, 37),
        (PropertyId::PRIORITY, 86),
        (PropertyId::ACK_REQUIRED, 1),
        (PropertyId::RECIPIENT_LIST, 102),
        (PropertyId::ENABLE, 133),
        (PropertyId::RECORD_COUNT, 141),
        (PropertyId::BUFFER_SIZE, 126),
        (PropertyId::STOP_WHEN_FULL, 144),
        (PropertyId::TOTAL_RECORD_COUNT, 145),
        (PropertyId::LOG_BUFFER, 131),
        (PropertyId::OBJECT_LIST, 76),
        (PropertyId::MAX_APDU_LENGTH_ACCEPTED, 62),
        (PropertyId::SEGMENTATION_SUPPORTED, 107),
        (PropertyId::VENDOR_IDENTIFIER, 120),
    ] {
        same(&rt, &property.0, &number);
    }
}

#[test]
fn confirmed_services_have_their_numbers(rt: HostRuntime) {
    for (service, number) in [
        (ConfirmedService::ACKNOWLEDGE_ALARM, 0),
        (ConfirmedService::CONFIRMED_EVENT_NOTIFICATION, 2),
        (ConfirmedService::READ_PROPERTY, 12),
        (ConfirmedService::WRITE_PROPERTY, 15),
        (ConfirmedService::READ_RANGE, 26),
        (ConfirmedService::GET_EVENT_INFORMATION, 29),
    ] {
        same(&rt, &service.0, &number);
    }
}

#[test]
fn unconfirmed_services_have_their_numbers(rt: HostRuntime) {
    for (service, number) in [
        (UnconfirmedService::I_AM, 0),
        (UnconfirmedService::UNCONFIRMED_EVENT_NOTIFICATION, 3),
        (UnconfirmedService::WHO_IS, 8),
    ] {
        same(&rt, &service.0, &number);
    }
}

#[test]
fn pdus_have_their_numbers(rt: HostRuntime) {
    for (pdu, number) in [
        (PduType::CONFIRMED_REQUEST, 0),
        (PduType::UNCONFIRMED_REQUEST, 1),
        (PduType::SIMPLE_ACK, 2),
        (PduType::COMPLEX_ACK, 3),
        (PduType::ERROR, 5),
        (PduType::REJECT, 6),
        (PduType::ABORT, 7),
    ] {
        same(&rt, &pdu.0, &number);
    }
}

#[test]
fn tags_have_their_numbers(rt: HostRuntime) {
    for (tag, number) in [
        (ApplicationTag::NULL, 0),
        (ApplicationTag::BOOLEAN, 1),
        (ApplicationTag::UNSIGNED, 2),
        (ApplicationTag::SIGNED, 3),
        (ApplicationTag::REAL, 4),
        (ApplicationTag::DOUBLE, 5),
        (ApplicationTag::OCTET_STRING, 6),
        (ApplicationTag::CHARACTER_STRING, 7),
        (ApplicationTag::BIT_STRING, 8),
        (ApplicationTag::ENUMERATED, 9),
        (ApplicationTag::DATE, 10),
        (ApplicationTag::TIME, 11),
        (ApplicationTag::OBJECT_IDENTIFIER, 12),
    ] {
        same(&rt, &tag.0, &number);
    }
}

#[test]
fn reasons_of_a_reject_have_their_numbers(rt: HostRuntime) {
    for (reason, number) in [
        (RejectReason::INVALID_TAG, 4),
        (RejectReason::MISSING_REQUIRED_PARAMETER, 5),
        (RejectReason::TOO_MANY_ARGUMENTS, 7),
        (RejectReason::UNRECOGNIZED_SERVICE, 9),
    ] {
        same(&rt, &reason.0, &number);
    }
}

#[test]
fn reasons_of_an_abort_have_their_numbers(rt: HostRuntime) {
    for (reason, number) in [
        (AbortReason::OTHER, 0),
        (AbortReason::SEGMENTATION_NOT_SUPPORTED, 4),
    ] {
        same(&rt, &reason.0, &number);
    }
}

#[test]
fn event_types_have_their_numbers(rt: HostRuntime) {
    for (kind, number) in [
        (EventType::CHANGE_OF_BITSTRING, 0),
        (EventType::CHANGE_OF_STATE, 1),
        (EventType::COMMAND_FAILURE, 3),
        (EventType::UNSIGNED_RANGE, 11),
        (EventType::SIGNED_OUT_OF_RANGE, 15),
        (EventType::UNSIGNED_OUT_OF_RANGE, 16),
        (EventType::CHANGE_OF_CHARACTERSTRING, 17),
        (EventType::CHANGE_OF_RELIABILITY, 19),
    ] {
        same(&rt, &kind.0, &number);
    }
}

#[test]
fn notify_types_have_their_numbers(rt: HostRuntime) {
    for (kind, number) in [
        (NotifyType::ALARM, 0),
        (NotifyType::EVENT, 1),
        (NotifyType::ACK_NOTIFICATION, 2),
    ] {
        same(&rt, &kind.0, &number);
    }
}

#[test]
fn kinds_have_their_numbers(rt: HostRuntime) {
    for (kind, number) in [
        (ObjectKind::BinaryValue, 5),
        (ObjectKind::Device, 8),
        (ObjectKind::EventEnrollment, 9),
        (ObjectKind::NotificationClass, 15),
        (ObjectKind::MultiStateValue, 19),
        (ObjectKind::EventLog, 25),
        (ObjectKind::BitStringValue, 39),
        (ObjectKind::CharacterStringValue, 40),
        (ObjectKind::IntegerValue, 45),
        (ObjectKind::PositiveIntegerValue, 48),
    ] {
        same(&rt, &kind.number(), &number);
    }
}

#[test]
fn states_have_their_numbers(rt: HostRuntime) {
    for (state, number) in [
        (EventState::Normal, 0),
        (EventState::Fault, 1),
        (EventState::Offnormal, 2),
        (EventState::HighLimit, 3),
        (EventState::LowLimit, 4),
    ] {
        same(&rt, &state.number(), &number);
    }
}

#[test]
fn errors_have_their_classes_and_codes(rt: HostRuntime) {
    for (error, numbers) in [
        (ServiceError::UNKNOWN_OBJECT, (1, 31)),
        (ServiceError::NO_ALARM_CONFIGURED, (1, 74)),
        (ServiceError::UNKNOWN_PROPERTY, (2, 32)),
        (ServiceError::INVALID_DATA_TYPE, (2, 9)),
        (ServiceError::VALUE_OUT_OF_RANGE, (2, 37)),
        (ServiceError::WRITE_ACCESS_DENIED, (2, 40)),
        (ServiceError::CHARACTER_SET_NOT_SUPPORTED, (2, 41)),
        (ServiceError::INVALID_ARRAY_INDEX, (2, 42)),
        (ServiceError::PROPERTY_IS_NOT_AN_ARRAY, (2, 50)),
        (ServiceError::NO_SPACE_TO_WRITE_PROPERTY, (3, 20)),
        (ServiceError::INVALID_TIME_STAMP, (5, 14)),
        (ServiceError::INVALID_EVENT_STATE, (5, 73)),
    ] {
        same(&rt, &(error.class, error.code), &numbers);
    }
}

#[test]
fn the_server_takes_1476_octets_and_no_segments(rt: HostRuntime) {
    same(&rt, &LONGEST_APDU, &1476);
    same(&rt, &NO_SEGMENTATION, &3);
}

#[test]
fn the_first_flag_is_the_lowest_bit(rt: HostRuntime) {
    let string = Bits::of_flags(&[true, false, false]);
    same(&rt, &(string.length(), string.bits()), &(3, 1));
    same(&rt, &string.three_flags(), &[true, false, false]);
    let string = Bits::of_flags(&[false, false, true, true]);
    same(&rt, &(string.length(), string.bits()), &(4, 12));
    same(&rt, &string.four_flags(), &[false, false, true, true]);
    same(&rt, &string.two_flags(), &[false, false]);
}
