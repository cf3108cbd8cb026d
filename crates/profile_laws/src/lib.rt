//! Laws above the decisions on requests, in the words of the profile.
#![tactic(auto)]

mod laws;

pub use laws::{
    field_inputs_are_refused_in_turn, long_answers_are_aborted, many_properties_are_reads,
    no_error_before_its_turn, reads_tell_the_state, run_starts_are_points,
    summaries_tell_each_once, unheeded_datagrams_are_ignored, what_is_edited_is_read_back,
    what_is_written_is_read_back,
};
