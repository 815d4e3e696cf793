//! What holds of the tokens of every text.
ghost use Rattle.svf_lex.specs.Laws.{TokensAreCut, BadByteIsCut, EachIsCut, PartsAreOne, TokensAreOne, BadByteIsOne};
ghost use Rattle.svf_lex.specs.Laws.{NeverBoth, PartsJoin, RunsStandApart, LexerGives, SlicesInOrder, ItemsAreFew};

/// The tokens of a text, with gaps between them, are those that are cut from it byte by byte.
pub fn tokens_with_gaps_are_the_cut()
    ensures tokens { TokensAreCut }
    ensures bad_byte { BadByteIsCut }
{}

/// A text has one cutting: into tokens and gaps up to its end, or up to the first byte that begins none.
pub fn a_text_has_one_cutting()
    ensures some { EachIsCut }
    ensures one { TokensAreOne }
    ensures one_row { PartsAreOne }
    ensures one_bad_byte { BadByteIsOne }
    ensures never_both { NeverBoth }
{}

/// The bytes of a text's tokens and gaps in order are the text, and between two runs is a gap.
pub fn tokens_and_gaps_join_to_the_text()
    ensures joined { PartsJoin }
    ensures runs_apart { RunsStandApart }
{}

/// A [`Lexer`](crate::Lexer) gives the tokens of the text, and then its fault if it has one: the first byte that begins
/// nothing, or that a statement is open at the end, with the first token behind the last `;`.
pub fn the_lexer_gives_the_tokens()
    ensures { LexerGives }
{}

/// The tokens that a [`Lexer`](crate::Lexer) gives are slices of the text at rising places, a fault is the last item,
/// and there are at most as many items as bytes, and one more.
pub fn tokens_are_slices_in_order()
    ensures in_order { SlicesInOrder }
    ensures few { ItemsAreFew }
{}
