//! Player and board with two bounded pipes between them: a schedule, event by event, how the play stands, and that one
//! from a fresh player on means its program.
#![tactic(auto)]

mod event;
mod finishing;
mod joined;
mod laws;
mod pipes;
mod standing;

pub use event::Event;
pub use joined::Joined;
pub use laws::{
    a_loss_names_what_is_in_work, few_events_move_something, only_a_lose_loses,
    something_can_move_until_it_is_over, what_is_found_first_is_what_stops,
    what_is_joined_ends_as_the_full_play, what_is_joined_holds_what_is_owed,
    what_is_joined_means_the_program, what_is_joined_stays_inside_the_full_play,
    what_plays_on_means_the_whole_program,
};
pub use pipes::{Pipes, Unjoined};
pub use play_links::{
    Player, Served, a_loop_over_linked_ends_finds_all_failures,
    a_loop_over_linked_ends_is_lost_only_by_a_lost_call, a_loop_over_linked_ends_means_the_program,
    a_loss_over_an_honest_link_names_what_is_in_work, an_end_is_whole, an_honest_end_has_found_all,
    an_honest_end_is_the_full_plays, an_honest_end_means_the_program,
    an_honest_link_stays_inside_the_full_play, an_honest_play_served_is_the_full_play,
    linked_ends_are_honest, loop_over, loop_over_all, loop_over_lent, play_over, play_over_all,
    play_over_lent, serve_over, take_bytes,
};
pub use standing::Standing;
