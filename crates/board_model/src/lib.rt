//! What a board of boundary-scan devices means: its edges (IEEE Std 1149.1-2001, clauses 4 to 12), and the whole
//! registers of a board at rest, with the laws that hold of every chain.
#![tactic(auto)]

mod laws;

pub use laws::{
    bare_boards_are_sound, bytes_keep_registers_sound, constants_stand_without_strings,
    default_paths_settle_and_arrive, every_string_holds_in_force, five_ones_reset_every_board,
    lowered_numbers_show_no_loop, lowering_strings_are_on_no_circle,
    no_circle_is_no_loop_of_strings, no_loop_of_strings_is_no_circle, only_the_bits_in_force_hold,
    rising_strings_are_in_order, rising_targets_are_in_order, rounds_settle,
    sound_descriptions_power_up_sound, strings_in_order_make_the_bits_in_force,
    the_bits_in_force_stay, the_opening_rests_every_board, the_opening_settles_and_resets,
};

/// What the board says to one byte.
#[derive(Debug, Clone, Copy, PartialEq, Eq)]
pub enum Reply {
    /// The byte was taken and asks for no answer.
    Nothing,
    /// The byte was `R`; this byte, `0` or `1`, answers it.
    Answer(u8),
    /// The byte was `Q`.
    Quit,
    /// The byte is not of the protocol; the board is unchanged.
    Refused(u8),
}
