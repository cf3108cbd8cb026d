//! The laws that the numbers in code are those of the definitions.

ghost use Rattle.std.specs.Prelude.{◌≡◌};
ghost use Rattle.bac_values.specs.ApplicationTags.{null_tag, boolean_tag, unsigned_tag, signed_tag, real_tag, double_tag, octet_string_tag, character_string_tag, bit_string_tag, enumerated_tag, date_tag, time_tag, object_identifier_tag};
ghost use Rattle.bac_values.specs.Pdus.{confirmed_request_pdu, unconfirmed_request_pdu, simple_ack_pdu, complex_ack_pdu, error_pdu, reject_pdu, abort_pdu};
ghost use Rattle.bac_values.specs.Properties.{acked_transitions_property, ack_required_property, alarm_value_property, alarm_values_property, all_properties, notification_class_property, deadband_property, event_enable_property, event_state_property, event_type_property, fault_values_property, high_limit_property, limit_enable_property, low_limit_property, max_apdu_length_accepted_property, notify_type_property, number_of_states_property, object_identifier_property, object_list_property, object_name_property, object_type_property, out_of_service_property, present_value_property, priority_property, recipient_list_property, reliability_property, segmentation_supported_property, status_flags_property, time_delay_property, vendor_identifier_property, buffer_size_property, event_time_stamps_property, log_buffer_property, enable_property, record_count_property, stop_when_full_property, total_record_count_property, event_message_texts_property, event_message_texts_config_property, event_detection_enable_property, event_algorithm_inhibit_property, event_algorithm_inhibit_ref_property, time_delay_normal_property, reliability_evaluation_inhibit_property};
ghost use Rattle.bac_values.specs.Services.{acknowledge_alarm_service, confirmed_event_notification_service, get_alarm_summary_service, get_enrollment_summary_service, add_list_element_service, remove_list_element_service, read_property_service, read_property_multiple_service, write_property_service, read_range_service, get_event_information_service, i_am_service, unconfirmed_event_notification_service, who_is_service, longest_apdu, no_segmentation};
ghost use Rattle.bac_values.specs.Errors.{unknown_object_error, no_alarm_configured_error, invalid_data_type_error, unknown_property_error, value_out_of_range_error, write_access_denied_error, character_set_not_supported_error, invalid_array_index_error, property_is_not_an_array_error, no_space_to_add_list_element_error, no_space_to_write_property_error, property_is_not_a_list_error, invalid_time_stamp_error, list_element_not_found_error, invalid_event_state_error};
ghost use Rattle.bac_values.specs.Reasons.{invalid_tag_reason, missing_required_parameter_reason, too_many_arguments_reason, unrecognized_service_reason, other_reason, segmentation_not_supported_reason};
ghost use Rattle.bac_values.specs.EventTypes.{change_of_bitstring_type, change_of_state_type, command_failure_type, unsigned_range_type, signed_out_of_range_type, unsigned_out_of_range_type, change_of_characterstring_type, change_of_reliability_type, alarm_notify_type, event_notify_type, ack_notification_notify_type};
ghost use Rattle.bac_values.specs.Identifier.{known_kinds};
ghost use Rattle.bac_values.specs.Moments.{first_moment, last_moment, unspecified_octets};

use crate::{
    AbortReason, ApplicationTag, ConfirmedService, EventType, FIRST_MOMENT, LAST_MOMENT,
    LONGEST_APDU, NO_SEGMENTATION, NotifyType, ObjectKind, PduType, PropertyId, RejectReason,
    ServiceError, Stamp, UnconfirmedService,
};

/// Each property has its number.
pub fn properties_have_their_numbers()
    ensures acked_transitions { PropertyId.ACKED_TRANSITIONS.0 ≡ acked_transitions_property }
    ensures ack_required { PropertyId.ACK_REQUIRED.0 ≡ ack_required_property }
    ensures alarm_value { PropertyId.ALARM_VALUE.0 ≡ alarm_value_property }
    ensures alarm_values { PropertyId.ALARM_VALUES.0 ≡ alarm_values_property }
    ensures all { PropertyId.ALL.0 ≡ all_properties }
    ensures notification_class { PropertyId.NOTIFICATION_CLASS.0 ≡ notification_class_property }
    ensures deadband { PropertyId.DEADBAND.0 ≡ deadband_property }
    ensures event_enable { PropertyId.EVENT_ENABLE.0 ≡ event_enable_property }
    ensures event_state { PropertyId.EVENT_STATE.0 ≡ event_state_property }
    ensures event_type { PropertyId.EVENT_TYPE.0 ≡ event_type_property }
    ensures fault_values { PropertyId.FAULT_VALUES.0 ≡ fault_values_property }
    ensures high_limit { PropertyId.HIGH_LIMIT.0 ≡ high_limit_property }
    ensures limit_enable { PropertyId.LIMIT_ENABLE.0 ≡ limit_enable_property }
    ensures low_limit { PropertyId.LOW_LIMIT.0 ≡ low_limit_property }
    ensures max_apdu_length_accepted { PropertyId.MAX_APDU_LENGTH_ACCEPTED.0 ≡ max_apdu_length_accepted_property }
    ensures notify_type { PropertyId.NOTIFY_TYPE.0 ≡ notify_type_property }
    ensures number_of_states { PropertyId.NUMBER_OF_STATES.0 ≡ number_of_states_property }
    ensures object_identifier { PropertyId.OBJECT_IDENTIFIER.0 ≡ object_identifier_property }
    ensures object_list { PropertyId.OBJECT_LIST.0 ≡ object_list_property }
    ensures object_name { PropertyId.OBJECT_NAME.0 ≡ object_name_property }
    ensures object_type { PropertyId.OBJECT_TYPE.0 ≡ object_type_property }
    ensures out_of_service { PropertyId.OUT_OF_SERVICE.0 ≡ out_of_service_property }
    ensures present_value { PropertyId.PRESENT_VALUE.0 ≡ present_value_property }
    ensures priority { PropertyId.PRIORITY.0 ≡ priority_property }
    ensures recipient_list { PropertyId.RECIPIENT_LIST.0 ≡ recipient_list_property }
    ensures reliability { PropertyId.RELIABILITY.0 ≡ reliability_property }
    ensures segmentation_supported { PropertyId.SEGMENTATION_SUPPORTED.0 ≡ segmentation_supported_property }
    ensures status_flags { PropertyId.STATUS_FLAGS.0 ≡ status_flags_property }
    ensures time_delay { PropertyId.TIME_DELAY.0 ≡ time_delay_property }
    ensures vendor_identifier { PropertyId.VENDOR_IDENTIFIER.0 ≡ vendor_identifier_property }
    ensures buffer_size { PropertyId.BUFFER_SIZE.0 ≡ buffer_size_property }
    ensures event_time_stamps { PropertyId.EVENT_TIME_STAMPS.0 ≡ event_time_stamps_property }
    ensures log_buffer { PropertyId.LOG_BUFFER.0 ≡ log_buffer_property }
    ensures enable { PropertyId.ENABLE.0 ≡ enable_property }
    ensures record_count { PropertyId.RECORD_COUNT.0 ≡ record_count_property }
    ensures stop_when_full { PropertyId.STOP_WHEN_FULL.0 ≡ stop_when_full_property }
    ensures total_record_count { PropertyId.TOTAL_RECORD_COUNT.0 ≡ total_record_count_property }
    ensures event_message_texts { PropertyId.EVENT_MESSAGE_TEXTS.0 ≡ event_message_texts_property }
    ensures event_message_texts_config { PropertyId.EVENT_MESSAGE_TEXTS_CONFIG.0 ≡ event_message_texts_config_property }
    ensures event_detection_enable { PropertyId.EVENT_DETECTION_ENABLE.0 ≡ event_detection_enable_property }
    ensures event_algorithm_inhibit { PropertyId.EVENT_ALGORITHM_INHIBIT.0 ≡ event_algorithm_inhibit_property }
    ensures event_algorithm_inhibit_ref { PropertyId.EVENT_ALGORITHM_INHIBIT_REF.0 ≡ event_algorithm_inhibit_ref_property }
    ensures time_delay_normal { PropertyId.TIME_DELAY_NORMAL.0 ≡ time_delay_normal_property }
    ensures reliability_evaluation_inhibit { PropertyId.RELIABILITY_EVALUATION_INHIBIT.0 ≡ reliability_evaluation_inhibit_property }
{}

/// Each service has its number.
pub fn services_have_their_numbers()
    ensures acknowledge_alarm { ConfirmedService.ACKNOWLEDGE_ALARM.0 ≡ acknowledge_alarm_service }
    ensures confirmed_event_notification { ConfirmedService.CONFIRMED_EVENT_NOTIFICATION.0 ≡ confirmed_event_notification_service }
    ensures get_alarm_summary { ConfirmedService.GET_ALARM_SUMMARY.0 ≡ get_alarm_summary_service }
    ensures get_enrollment_summary { ConfirmedService.GET_ENROLLMENT_SUMMARY.0 ≡ get_enrollment_summary_service }
    ensures add_list_element { ConfirmedService.ADD_LIST_ELEMENT.0 ≡ add_list_element_service }
    ensures remove_list_element { ConfirmedService.REMOVE_LIST_ELEMENT.0 ≡ remove_list_element_service }
    ensures read_property { ConfirmedService.READ_PROPERTY.0 ≡ read_property_service }
    ensures read_property_multiple { ConfirmedService.READ_PROPERTY_MULTIPLE.0 ≡ read_property_multiple_service }
    ensures write_property { ConfirmedService.WRITE_PROPERTY.0 ≡ write_property_service }
    ensures read_range { ConfirmedService.READ_RANGE.0 ≡ read_range_service }
    ensures get_event_information { ConfirmedService.GET_EVENT_INFORMATION.0 ≡ get_event_information_service }
    ensures i_am { UnconfirmedService.I_AM.0 ≡ i_am_service }
    ensures unconfirmed_event_notification { UnconfirmedService.UNCONFIRMED_EVENT_NOTIFICATION.0 ≡ unconfirmed_event_notification_service }
    ensures who_is { UnconfirmedService.WHO_IS.0 ≡ who_is_service }
    ensures longest_apdu { LONGEST_APDU ≡ longest_apdu }
    ensures no_segmentation { NO_SEGMENTATION ≡ no_segmentation }
{}

/// Each error has its class and its code.
pub fn errors_have_their_numbers()
    ensures unknown_object { ServiceError.UNKNOWN_OBJECT ≡ unknown_object_error }
    ensures no_alarm_configured { ServiceError.NO_ALARM_CONFIGURED ≡ no_alarm_configured_error }
    ensures invalid_data_type { ServiceError.INVALID_DATA_TYPE ≡ invalid_data_type_error }
    ensures unknown_property { ServiceError.UNKNOWN_PROPERTY ≡ unknown_property_error }
    ensures value_out_of_range { ServiceError.VALUE_OUT_OF_RANGE ≡ value_out_of_range_error }
    ensures write_access_denied { ServiceError.WRITE_ACCESS_DENIED ≡ write_access_denied_error }
    ensures character_set_not_supported { ServiceError.CHARACTER_SET_NOT_SUPPORTED ≡ character_set_not_supported_error }
    ensures invalid_array_index { ServiceError.INVALID_ARRAY_INDEX ≡ invalid_array_index_error }
    ensures property_is_not_an_array { ServiceError.PROPERTY_IS_NOT_AN_ARRAY ≡ property_is_not_an_array_error }
    ensures no_space_to_add_list_element { ServiceError.NO_SPACE_TO_ADD_LIST_ELEMENT ≡ no_space_to_add_list_element_error }
    ensures no_space_to_write_property { ServiceError.NO_SPACE_TO_WRITE_PROPERTY ≡ no_space_to_write_property_error }
    ensures property_is_not_a_list { ServiceError.PROPERTY_IS_NOT_A_LIST ≡ property_is_not_a_list_error }
    ensures invalid_time_stamp { ServiceError.INVALID_TIME_STAMP ≡ invalid_time_stamp_error }
    ensures list_element_not_found { ServiceError.LIST_ELEMENT_NOT_FOUND ≡ list_element_not_found_error }
    ensures invalid_event_state { ServiceError.INVALID_EVENT_STATE ≡ invalid_event_state_error }
{}

/// Each reason of a Reject and of an Abort has its number.
pub fn reasons_have_their_numbers()
    ensures invalid_tag { RejectReason.INVALID_TAG.0 ≡ invalid_tag_reason }
    ensures missing_required_parameter { RejectReason.MISSING_REQUIRED_PARAMETER.0 ≡ missing_required_parameter_reason }
    ensures too_many_arguments { RejectReason.TOO_MANY_ARGUMENTS.0 ≡ too_many_arguments_reason }
    ensures unrecognized_service { RejectReason.UNRECOGNIZED_SERVICE.0 ≡ unrecognized_service_reason }
    ensures other { AbortReason.OTHER.0 ≡ other_reason }
    ensures segmentation_not_supported { AbortReason.SEGMENTATION_NOT_SUPPORTED.0 ≡ segmentation_not_supported_reason }
{}

/// Each event type and each notify type has its number.
pub fn event_types_have_their_numbers()
    ensures change_of_bitstring { EventType.CHANGE_OF_BITSTRING.0 ≡ change_of_bitstring_type }
    ensures change_of_state { EventType.CHANGE_OF_STATE.0 ≡ change_of_state_type }
    ensures command_failure { EventType.COMMAND_FAILURE.0 ≡ command_failure_type }
    ensures unsigned_range { EventType.UNSIGNED_RANGE.0 ≡ unsigned_range_type }
    ensures signed_out_of_range { EventType.SIGNED_OUT_OF_RANGE.0 ≡ signed_out_of_range_type }
    ensures unsigned_out_of_range { EventType.UNSIGNED_OUT_OF_RANGE.0 ≡ unsigned_out_of_range_type }
    ensures change_of_characterstring { EventType.CHANGE_OF_CHARACTERSTRING.0 ≡ change_of_characterstring_type }
    ensures change_of_reliability { EventType.CHANGE_OF_RELIABILITY.0 ≡ change_of_reliability_type }
    ensures alarm { NotifyType.ALARM.0 ≡ alarm_notify_type }
    ensures event { NotifyType.EVENT.0 ≡ event_notify_type }
    ensures ack_notification { NotifyType.ACK_NOTIFICATION.0 ≡ ack_notification_notify_type }
{}

/// Each application tag has its number.
pub fn tags_have_their_numbers()
    ensures null { ApplicationTag.NULL.0 ≡ null_tag }
    ensures boolean { ApplicationTag.BOOLEAN.0 ≡ boolean_tag }
    ensures unsigned { ApplicationTag.UNSIGNED.0 ≡ unsigned_tag }
    ensures signed { ApplicationTag.SIGNED.0 ≡ signed_tag }
    ensures real { ApplicationTag.REAL.0 ≡ real_tag }
    ensures double { ApplicationTag.DOUBLE.0 ≡ double_tag }
    ensures octet_string { ApplicationTag.OCTET_STRING.0 ≡ octet_string_tag }
    ensures character_string { ApplicationTag.CHARACTER_STRING.0 ≡ character_string_tag }
    ensures bit_string { ApplicationTag.BIT_STRING.0 ≡ bit_string_tag }
    ensures enumerated { ApplicationTag.ENUMERATED.0 ≡ enumerated_tag }
    ensures date { ApplicationTag.DATE.0 ≡ date_tag }
    ensures time { ApplicationTag.TIME.0 ≡ time_tag }
    ensures object_identifier { ApplicationTag.OBJECT_IDENTIFIER.0 ≡ object_identifier_tag }
{}

/// Each PDU type has its number.
pub fn pdus_have_their_numbers()
    ensures confirmed_request { PduType.CONFIRMED_REQUEST.0 ≡ confirmed_request_pdu }
    ensures unconfirmed_request { PduType.UNCONFIRMED_REQUEST.0 ≡ unconfirmed_request_pdu }
    ensures simple_ack { PduType.SIMPLE_ACK.0 ≡ simple_ack_pdu }
    ensures complex_ack { PduType.COMPLEX_ACK.0 ≡ complex_ack_pdu }
    ensures error { PduType.ERROR.0 ≡ error_pdu }
    ensures reject { PduType.REJECT.0 ≡ reject_pdu }
    ensures abort { PduType.ABORT.0 ≡ abort_pdu }
{}

/// All types of objects that the server knows are listed, ascending by number.
pub fn kinds_are_all()
    ensures all { ObjectKind.ALL ≡ known_kinds }
{}

/// The first and the last moment are those that contracts name, and the stamp of what has never been has each octet
/// unspecified.
pub fn moments_have_their_numbers()
    ensures first { FIRST_MOMENT ≡ first_moment }
    ensures last { LAST_MOMENT ≡ last_moment }
    ensures never { Stamp.NEVER.octets ≡ unspecified_octets }
{}
