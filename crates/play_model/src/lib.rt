//! Plays: what a program means over a board's whole registers, what the player sends for the answers that it gets, the
//! full play of both ends, every order of events over two pipes between them, and the laws that join these. Definitions
//! and laws; the code that plays stands above.
#![tactic(auto)]

mod ending;
mod kind;
mod laws;
mod legal;
mod schedules;
mod streams;

pub use ending::{Ending, part_word, write_verdict};
pub use kind::Kind;
pub use laws::{
    steps_ask_for_their_bits, the_empty_program_rests_every_board, the_full_play_is_both_ends,
    the_player_grows_by_answers, what_follows_a_failure_is_not_played,
};
pub use legal::{
    each_legal_step_plays_as_it_means, every_described_board_plays_legal_programs,
    every_legal_program_means_from_the_opening, every_legal_program_plays_as_it_means,
    legality_is_of_the_program_alone, the_premises_are_needed, the_premises_can_be_met,
    the_state_at_rest_is_one,
};
pub use schedules::{
    a_lose_loses, a_loss_names_the_command_in_work, a_new_play_means_from_its_opening,
    a_play_to_the_end_means_all, connections_must_be_open, every_described_board_means_it_too,
    every_schedule_means_all, every_schedule_means_what_the_program_means,
    every_schedule_stays_inside_the_full_play, fair_drivers_end, honest_answers_are_the_full_plays,
    lost_only_by_a_lose, moving_events_are_bounded, no_other_verdict_is_given,
    one_byte_each_way_ends, several_calls_are_one, something_can_move,
    the_first_of_all_failures_is_the_first, the_first_of_all_played_is_the_first,
    what_ends_is_the_full_play,
};
pub use streams::{
    an_honest_verdict_for_any_window, answering_stays_asked, calls_go_alike, fresh_agrees,
    hearing_is_the_history, owed_within_the_window, samples_compute, schedules_carry_over,
    streams_agree,
};
