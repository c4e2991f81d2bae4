// Marks: the longest that fits.
ghost use Rattle.std.specs.Prelude.{◌≡◌, [], ◌∷◌, ◌<◌, length, take, drop, get_or};
ghost use Rattle.lexer.specs.Spellings.{kind_of};
ghost use Rattle.lexer.specs.Editions.{edition17};
ghost use Rattle.lexer.specs.internal.Editions.{edition_of, has_shifts};
ghost use Rattle.lexer.specs.Tests.{pick};
ghost use Rattle.lexer.specs.Lexemes.{BadByte, mark_of, mark};
ghost use Rattle.lexer.specs.internal.CodeLexemes.{as_lexeme};
ghost use Rattle.lexer.specs.internal.KindNumbers.{kind_number, kind_or_0};

use crate::{Edition, Lexeme, TokenKind, bytes};

// A kind, where the edition has shifts.
fn shift_kind(edition: Edition, kind: TokenKind) -> Option<TokenKind>
    ensures { kind_or_0 result ≡ pick (has_shifts (edition_of edition)) (kind_number kind) 0 }
{
    if edition.has_shifts() {
        return Some(kind);
    }
    None
}

// The kind of the mark that two bytes spell.
pub(crate) fn pair_kind(edition: Edition, first: u8, second: u8) -> Option<TokenKind>
    ensures { kind_or_0 result ≡ kind_of (edition_of edition).marks (first ∷ second ∷ []) }
{
    if second == b'=' {
        return match first {
            b'=' => Some(TokenKind::EqualEqual),
            b'!' => Some(TokenKind::BangEqual),
            b'<' => Some(TokenKind::LessEqual),
            b'>' => Some(TokenKind::GreaterEqual),
            _ => None,
        };
    }
    if first == second {
        return match first {
            b'<' => shift_kind(edition, TokenKind::LessLess),
            b'>' => shift_kind(edition, TokenKind::GreaterGreater),
            b'?' => Some(TokenKind::QuestionQuestion),
            _ => None,
        };
    }
    None
}

// The mark that one byte is, the same in every edition.
fn mark_of_one(first: u8) -> Lexeme
    ensures { as_lexeme result ≡ mark_of (kind_of edition17.marks (first ∷ [])) 1 BadByte }
{
    let kind = bytes::mark_kind(first);
    match kind {
        Some(kind) => Lexeme::Token(kind, 1),
        None => Lexeme::BadByte,
    }
}

// The mark at the front of two bytes.
fn mark_of_two(edition: Edition, first: u8, second: u8) -> Lexeme
    ensures { as_lexeme result ≡ mark (edition_of edition) (first ∷ second ∷ []) }
{
    let kind = pair_kind(edition, first, second);
    match kind {
        Some(kind) => Lexeme::Token(kind, 2),
        None => mark_of_one(first),
    }
}

// The mark at `at`, where the first byte of `→` stands. No other mark begins with it, in any edition.
fn arrow_at(source: &[u8], at: usize) -> Lexeme
    requires { (at < length source.now) × (get_or source.now at 0 ≡ 0xE2) }
    ensures { as_lexeme result ≡ mark_of (kind_of edition17.marks (take 3 (drop at source.now))) 3 BadByte }
{
    let next = at + 1;
    if source.get(next) == Some(&0x86) && source.get(next + 1) == Some(&0x92) {
        return Lexeme::Token(TokenKind::Arrow, 3);
    }
    Lexeme::BadByte
}

// The mark at `at`. Only `→` has more than two bytes. Part of the pass, as the rules in `lexemes` are.
#[inline(always)]
pub fn mark_at(edition: Edition, source: &[u8], at: usize) -> Lexeme
    ensures { as_lexeme result ≡ mark (edition_of edition) (drop at source.now) }
{
    let Some(&first) = source.get(at) else {
        return Lexeme::BadByte;
    };
    if first == 0xE2 {
        return arrow_at(source, at);
    }
    match source.get(at + 1) {
        Some(&second) => mark_of_two(edition, first, second),
        None => mark_of_one(first),
    }
}
