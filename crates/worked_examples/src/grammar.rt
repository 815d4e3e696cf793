//! What holds of all lists of tokens and of all texts.
ghost use Rattle.worked_examples.specs.GrammarLaws.{PortsAreRead, ValuesAreRead, EntitiesAreRead, TextsAreRead, DevicesAreRead};
ghost use Rattle.worked_examples.specs.GrammarLaws.{EntitiesAreOne, DevicesAreOne};
ghost use Rattle.worked_examples.specs.GrammarLaws.{LargeIsRefused, BadByteIsRefused, NothingIsRefused, EachIsTold};
ghost use Rattle.worked_examples.specs.GrammarLaws.{OpcodesAreRead, PatternsAreRead, CodesAreRead, PrivateNamesAreRead};
ghost use Rattle.worked_examples.specs.GrammarLaws.{AccessesAreRead, CellsAreRead};

/// Tokens are read as a port list, the value of an attribute or an entity exactly where all of them are one by the
/// grammar, in which nothing reads from left to right.
pub fn tokens_are_read()
    ensures ports { PortsAreRead }
    ensures values { ValuesAreRead }
    ensures entities { EntitiesAreRead }
{}

/// And so are texts within quotes, in each of their languages.
pub fn quoted_texts_are_read()
    ensures opcodes { OpcodesAreRead }
    ensures patterns { PatternsAreRead }
    ensures codes { CodesAreRead }
    ensures private_names { PrivateNamesAreRead }
    ensures accesses { AccessesAreRead }
    ensures cells { CellsAreRead }
{}

/// And so are whole texts: as an entity exactly where they spell it, and as a device exactly where they describe it.
pub fn texts_are_read()
    ensures entities { TextsAreRead }
    ensures devices { DevicesAreRead }
{}

/// A text spells at most one entity, and describes at most one device.
pub fn a_text_spells_one_entity()
    ensures entity { EntitiesAreOne }
    ensures device { DevicesAreOne }
{}

/// Every other text is refused: for its size, for its first byte that begins no token, or for its form, where its
/// tokens are no entity by the grammar.
pub fn other_texts_are_refused()
    ensures size { LargeIsRefused }
    ensures byte { BadByteIsRefused }
    ensures form { NothingIsRefused }
    ensures each { EachIsTold }
{}
