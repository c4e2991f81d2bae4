// Words: where one ends, whether it is an IDENT, and the parts that `::` joins to it.
ghost use Rattle.std.specs.Prelude.{◌≡◌, ◌+◌, ◌-◌, ◌≤◌, drop};
ghost use Rattle.lexer.specs.internal.Kinds.{ident};
ghost use Rattle.lexer.specs.Words.{word_length, ident_length, two_colons, joins};
ghost use Rattle.lexer.specs.Lexemes.{Token, word};
ghost use Rattle.lexer.specs.internal.CodeLexemes.{as_lexeme};

use crate::bytes::ByteClass;
use crate::{Class, Lexeme, TokenKind, bytes, runs};

// Where the word at `at` ends. Where there is none, it is one of no bytes and ends at `at`.
pub fn word_end(source: &[u8], at: usize) -> usize
    ensures { result ≡ at + word_length (drop at source.now) }
{
    if at < source.len() && bytes::class_of(source[at]) == ByteClass::Letter {
        return runs::run_end(source, at + 1, Class::Word);
    }
    at
}

// Where the IDENT at `at` ends. Where there is none, it is one of no bytes and ends at `at`.
fn ident_end(source: &[u8], at: usize) -> usize
    ensures { result ≡ at + ident_length (drop at source.now) }
{
    let end = word_end(source, at);
    if end - at == 1 && bytes::letter_kind(source[at]) != TokenKind::Ident {
        return at;
    }
    end
}

// Whether two colons stand at `at`.
#[tactic(auto, using(crate::proofs::Laws::Words::colons_at, crate::proofs::Laws::Fronts::byte_tested), unfolding(crate::specs::Tests::and))]
pub fn two_colons(source: &[u8], at: usize) -> bool
    ensures { result ≡ two_colons (drop at source.now) }
{
    source.get(at) == Some(&b':') && source.get(at + 1) == Some(&b':')
}

// Where an IDENT that ends at `end` ends with all that joins it. The place goes on by the length of each part, so no `for` fits.
pub(crate) fn joins_end(source: &[u8], end: usize) -> usize
    ensures { result ≡ end + joins (drop end source.now) }
{
    let mut i = end;
    while two_colons(source, i) {
        let part = i + 2;
        let next = ident_end(source, part);
        if next == part {
            return i;
        }
        i = next;
    }
    i
}

// The IDENT from `at` to `end` with all that joins it.
fn joined(source: &[u8], at: usize, end: usize) -> Lexeme
    requires { at ≤ end }
    ensures { as_lexeme result ≡ Token ident (end - at + joins (drop end source.now)) }
{
    let last = joins_end(source, end);
    Lexeme::Token(TokenKind::Ident, last - at)
}

// The word at `at`.
pub fn word_at(source: &[u8], at: usize) -> Lexeme
    ensures { as_lexeme result ≡ word (drop at source.now) }
{
    let end = word_end(source, at);
    if end == at {
        return Lexeme::BadByte;
    }
    if end - at == 1 {
        let kind = bytes::letter_kind(source[at]);
        if kind != TokenKind::Ident {
            return Lexeme::Token(kind, 1);
        }
    }
    joined(source, at, end)
}
