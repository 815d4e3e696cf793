//! Worked programs: what words, texts and lists of statements say, computed from the definitions.
ghost use Rattle.worked_examples.specs.LexRows.{LexRows};
ghost use Rattle.worked_examples.specs.NumberRows.{NumberRows};
ghost use Rattle.worked_examples.specs.SettingsRows.{SettingsRows};
ghost use Rattle.worked_examples.specs.StatementRows.{StatementRows};
ghost use Rattle.worked_examples.specs.WordRows.{WordRows};

/// What each of these lists of statements resolves to.
pub fn settings_compute()
    ensures { SettingsRows }
{}

/// Which numbers these words write, and that others write none.
pub fn numbers_compute()
    ensures { NumberRows }
{}

/// Which words are which states, messages, values and instructions.
pub fn words_compute()
    ensures { WordRows }
{}

/// Which tokens these texts are cut into.
pub fn tokens_compute()
    ensures { LexRows }
{}

/// Which statements these texts spell, and how others are refused.
pub fn statements_compute()
    ensures { StatementRows }
{}
