// Numbers: digits, a fraction, an exponent.
ghost use Rattle.std.specs.Prelude.{◌≡◌, ◌+◌, ◌-◌, ◌≤◌, ◌<◌, length, drop};
ghost use Rattle.lexer.specs.Numbers.{fraction, sign, exponent};
ghost use Rattle.lexer.specs.Lexemes.{number_of};
ghost use Rattle.lexer.specs.internal.CodeLexemes.{as_lexeme};

use crate::{Class, Lexeme, TokenKind, bytes, runs};

// Where the point and digits at `at` end, or `at` where not all of that is there.
pub fn fraction_end(source: &[u8], at: usize) -> usize
    ensures { result ≡ at + fraction (drop at source.now) }
{
    if bytes::begins_either(source, at, b'.', b'.') {
        let from = at + 1;
        let end = runs::run_end(source, from, Class::Digit);
        if from < end {
            return end;
        }
    }
    at
}

// Where the optional sign at `at` ends.
fn sign_end(source: &[u8], at: usize) -> usize
    ensures { result ≡ at + sign (drop at source.now) }
{
    if bytes::begins_either(source, at, b'+', b'-') {
        return at + 1;
    }
    at
}

// Where the exponent at `at` ends, or `at` where not all of one is there.
pub fn exponent_end(source: &[u8], at: usize) -> usize
    ensures { result ≡ at + exponent (drop at source.now) }
{
    if bytes::begins_either(source, at, b'e', b'E') {
        let from = sign_end(source, at + 1);
        let end = runs::run_end(source, from, Class::Digit);
        if from < end {
            return end;
        }
    }
    at
}

// The number at `at`, whose digits, with a minus or without, end at `whole`.
pub(crate) fn number_from(source: &[u8], at: usize, whole: usize) -> Lexeme
    requires { (at < whole) × (whole ≤ length source.now) }
    ensures { as_lexeme result ≡ number_of (whole - at) (fraction (drop whole source.now)) (drop at source.now) }
{
    let point = fraction_end(source, whole);
    if point == whole {
        return Lexeme::Token(TokenKind::Int, whole - at);
    }
    let end = exponent_end(source, point);
    Lexeme::Token(TokenKind::Float, end - at)
}
