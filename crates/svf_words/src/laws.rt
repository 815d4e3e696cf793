//! What holds of every word that stands for a keyword.
ghost use Rattle.svf_words.specs.Keywords.{IsReadInAnyCase, clock_of, clock_word, command_of, command_word, field_of};
ghost use Rattle.svf_words.specs.Keywords.{field_word, state_of, trst_of, trst_word};
ghost use Rattle.jt_tap.specs.Words as states;

/// A word is read as a keyword exactly where it is that keyword, in any case: a command, the name of a field, a clock,
/// a word of TRST, a state.
pub fn keywords_are_read_in_any_case()
    ensures commands { IsReadInAnyCase command_word command_of }
    ensures fields { IsReadInAnyCase field_word field_of }
    ensures clocks { IsReadInAnyCase clock_word clock_of }
    ensures trst { IsReadInAnyCase trst_word trst_of }
    ensures states { IsReadInAnyCase states.word state_of }
{}
