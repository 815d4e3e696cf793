//! A player of Serial Vector Format programs, and a simulated board that it is proved to agree with.
#![tactic(auto)]

mod connected;
mod headline;
mod linking;
mod play;
mod refusing;
mod run;
mod showing;
mod stop;

pub use byte_streams::{Both, End, Sink, Source};
pub use connected::{
    a_loop_over_linked_ends_means_the_text, an_honest_end_means_the_text,
    what_a_loop_leaves_is_in_use, what_serving_leaves_is_in_use,
};
pub use headline::{
    direct_plays_pass_or_fail, every_run_ends, every_schedule_means_what_the_text_means,
    every_schedule_of_either_kind_means_what_the_text_means, what_direct_plays_leave_is_in_use,
    what_events_leave_is_in_use, what_events_of_either_kind_leave_is_in_use,
};
pub use linking::{
    fresh_player, run_loop, run_over, run_serve, tell_listening, tell_served, tell_unplayed,
    tell_verdict,
};
pub use play::{play_board, play_board_all, play_noted};
pub use play_direct::{
    Board, BoardFault, Broken, BsdlFault, Counted, Level, Reply, Snapshot, accept, board_table,
    bsdl_names, end_scan, play_opening, play_step, table_names, write_report,
};
pub use play_model::{Ending, Kind, write_verdict};
pub use play_pipes::{
    Event, Joined, Player, Served, Standing, Unjoined, a_loop_over_linked_ends_finds_all_failures,
    a_loop_over_linked_ends_is_lost_only_by_a_lost_call, a_loop_over_linked_ends_means_the_program,
    a_loss_over_an_honest_link_names_what_is_in_work, an_end_is_whole, an_honest_end_has_found_all,
    an_honest_end_is_the_full_plays, an_honest_end_means_the_program,
    an_honest_link_stays_inside_the_full_play, an_honest_play_served_is_the_full_play,
    linked_ends_are_honest, loop_over, loop_over_all, loop_over_lent, play_over, play_over_all,
    play_over_lent, serve_over, take_bytes,
};
pub use refusing::{refuse_board, refuse_file, refuse_memory};
pub use run::{
    check_program, play_and_note, refuse_text, run_check, run_play, run_play_all, run_program,
};
pub use scan_vectors::{Failures, Mismatch, Part};
pub use stop::Stop;
pub use svf_parse::{Code, SvfFault};
pub use svf_programs::{Action, Program, Step};
