//! The laws of the machine of one thread, which are those of reference.
pub use reference::laws::{
    a_pair_stores, a_write_between_ends_a_pair, accesses_are_few, accesses_are_paired_right,
    ends_where_all_are_over, fetches_are_executed, fetches_change_times_and_outcomes_alone,
    histories_are_phases, histories_are_runs_of_the_machine, instructions_are_steps_and_replies,
    intervals_begin, loads_and_stores_are_whole, local_instructions_are_alone,
    local_instructions_end, other_bytes_stay, phases_are_histories, recorded_order_is_a_history,
    same_path, shards_do_as_the_machine, steps_lead_to_the_end, stored_is_loaded,
    turns_are_scheduled, turns_are_steps, turns_are_the_cores_own, turns_lead_on,
    turns_make_a_history,
};
