//! What holds of every list of words.

ghost use Rattle.svf_parse.specs.Grammar.{FormsAreReadAsTheyAreWritten};

/// The words behind a command are read as a form exactly where they, with the command's word, have that form by the
/// grammar, which reads nothing from left to right.
pub fn forms_are_read_as_they_are_written()
    ensures { FormsAreReadAsTheyAreWritten }
{}
