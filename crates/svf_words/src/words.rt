//! The words of a statement, one after another.
ghost use Rattle.std.specs.Prelude.{◌≡◌, ◌∷◌, [], MatchOption};
ghost use Rattle.svf_lex.specs.Left.{left};
ghost use Rattle.svf_words.specs.Words as spec;
ghost use Rattle.svf_words.specs.Words.{words_left, groups_of, with_word};

use svf_lex::Lexer;

/// Takes the next word of the statement. There is none at the `;`, at the text's end and at a fault: what is left stays
/// then, but the gap before that is passed, so that nobody walks through it again.
pub fn take_word<'a>(lexer: &mut Lexer<'a>) -> Option<&'a [u8]>
    ensures word { MatchOption result (words_left lexer.old ≡ [])
        (λ w. words_left lexer.old ≡ w.now ∷ words_left lexer.new) }
    ensures after { MatchOption result (left lexer.new ≡ left lexer.old)
        (λ w. groups_of (left lexer.old) ≡ with_word w.now (groups_of (left lexer.new))) }
{
    match lexer.next_of_statement() {
        Some(token) => Some(token.text),
        None => None,
    }
}

/// Whether the word is this keyword, in any case of ASCII letters.
pub fn reads(word: &[u8], keyword: &[u8]) -> bool
    ensures { result ≡ spec.reads word.now keyword.now }
{
    word.eq_ignore_ascii_case(keyword)
}

/// Whether the word is `(`, which opens the digits of a field.
pub fn is_open(word: &[u8]) -> bool
    ensures { result ≡ spec.is_open word.now }
{
    word.first() == Some(&b'(')
}

/// Whether the word is `)`, which closes the digits of a field.
pub fn is_close(word: &[u8]) -> bool
    ensures { result ≡ spec.is_close word.now }
{
    word.first() == Some(&b')')
}

/// Whether the word stands for a number: it begins with a digit or a point.
pub fn is_number(word: &[u8]) -> bool
    ensures { result ≡ spec.is_number word.now }
{
    match word.first() {
        Some(first) => first.is_ascii_digit() || *first == b'.',
        None => false,
    }
}
