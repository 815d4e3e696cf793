//! What holds of the tokens of every text.
ghost use Rattle.bsdl_text.specs.TokenLaws.{TokensAreCut, BadByteIsCut, EachIsCut, TokensAreOne, BadByteIsOne};
ghost use Rattle.bsdl_text.specs.TokenLaws.{NeverBoth};

/// The tokens of a text, with gaps between them, are those that are cut from it byte by byte.
pub fn tokens_with_gaps_are_the_cut()
    ensures tokens { TokensAreCut }
    ensures bad_byte { BadByteIsCut }
{}

/// A text has one cutting: into tokens and gaps up to its end, or up to the first byte that begins none.
pub fn a_text_has_one_cutting()
    ensures some { EachIsCut }
    ensures one { TokensAreOne }
    ensures one_bad_byte { BadByteIsOne }
    ensures never_both { NeverBoth }
{}
