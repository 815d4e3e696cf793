//! What holds of the positions of every text, and worked examples.
ghost use Rattle.refusal_places.specs.PositionLaws.{PositionOfFirstToken};
ghost use Rattle.refusal_places.specs.TextRows.{StatementRows, OffsetRows};

/// The position of a statement is that of its first token: of the text's tokens, cut at each `;`, those of the group
/// that is the statement.
pub fn a_statement_stands_at_its_first_token()
    ensures { PositionOfFirstToken }
{
    svf_lex::the_lexer_gives_the_tokens();
}

/// Where the statements of these texts start, and where bytes of them stand.
pub fn positions_compute()
    ensures statements { StatementRows }
    ensures offsets { OffsetRows }
{}
