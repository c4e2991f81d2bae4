// The lexeme at a place of a pass: told by the table of bytes where a word would end before the source does, and else by `lexeme_at`.
ghost use Rattle.std.specs.Prelude.{◌≡◌, true, [], ◌∷◌, ◌+◌, ◌-◌, ◌≤◌, ◌<◌, length, drop, get_or};
ghost use Rattle.lexer.specs.Bytes.{is_letter, is_digit};
ghost use Rattle.lexer.specs.Spellings.{kind_of};
ghost use Rattle.lexer.specs.Editions.{edition17};
ghost use Rattle.lexer.specs.Words.{word_kind, joins};
ghost use Rattle.lexer.specs.Lexemes.{Token, word, unsigned_number, mark, lexeme};
ghost use Rattle.lexer.specs.Table.{source_limit};
ghost use Rattle.lexer.specs.internal.Kinds.{ident};
ghost use Rattle.lexer.specs.internal.CodeLexemes.{as_lexeme};
ghost use Rattle.lexer.specs.internal.Editions.{edition_of};
ghost use Rattle.lexer.specs.internal.KindNumbers.{kind_number};
ghost use Rattle.lexer.specs.internal.Entries.{Bounded};

use crate::entries::ByteEntry;
use crate::runs::{self, ByteTest, Digit, Word};
use crate::{Edition, Lexeme, TokenKind, lexemes, marks, numbers, words};

// What every step of a pass goes by: the source. The edition stays a parameter: a constant one then reaches every function, and as a field
// it takes 1.7 % more instructions for typical scripts.
#[derive(Clone, Copy)]
pub(crate) struct Scanner<'a> {
    pub(crate) source: &'a [u8],
    ghost short: { length source.now ≤ source_limit },
}

impl Scanner<'_> {
    // The IDENT at `at` that a word which ends at `end` begins, with all that joins it. With words read by `words::word_at`, typical scripts
    // take 37 % more instructions.
    fn ident(&self, at: usize, end: usize) -> Lexeme
        requires { (at ≤ end) × (end < length self.now.source.now) }
        ensures { as_lexeme result ≡ Token ident (end - at + joins (drop end self.now.source.now)) }
    {
        let source = self.source;
        if source[end] == b':' {
            return Lexeme::Token(TokenKind::Ident, words::joins_end(source, end) - at);
        }
        Lexeme::Token(TokenKind::Ident, end - at)
    }

    // The word at `at`, where a letter stands, with the kind that it has alone.
    fn word(&self, at: usize, alone: TokenKind) -> Lexeme
        requires bounded { Bounded self.now.source.now at }
        requires letter { is_letter (get_or self.now.source.now at 0) ≡ true }
        requires alone { word_kind (get_or self.now.source.now at 0 ∷ []) ≡ kind_number alone }
        ensures { as_lexeme result ≡ word (drop at self.now.source.now) }
    {
        let source = self.source;
        let next = at + 1;
        if Word.passes(source[next]) {
            let end = runs::end_inside(source, next + 1, &Word);
            return self.ident(at, end);
        }
        if alone != TokenKind::Ident {
            return Lexeme::Token(alone, 1);
        }
        self.ident(at, next)
    }

    // The number at `at`, where a digit stands. With numbers read by `lexemes::digits_at`, long ones take 48 % more instructions.
    fn digits(&self, at: usize) -> Lexeme
        requires bounded { Bounded self.now.source.now at }
        requires digit { is_digit (get_or self.now.source.now at 0) ≡ true }
        ensures { as_lexeme result ≡ unsigned_number (drop at self.now.source.now) }
    {
        let source = self.source;
        let whole = runs::end_inside(source, at + 1, &Digit);
        numbers::number_from(source, at, whole)
    }

    // The mark at `at`, where a byte stands with which a longer one may begin, with the kind that it has alone. With such marks read by
    // `marks::mark_at`, nested scripts take 6 % more instructions.
    fn longer_mark(&self, edition: Edition, at: usize, alone: TokenKind) -> Lexeme
        requires at_in_bounds { at < length self.now.source.now }
        requires alone { kind_of edition17.marks (get_or self.now.source.now at 0 ∷ []) ≡ kind_number alone }
        ensures { as_lexeme result ≡ mark (edition_of edition) (drop at self.now.source.now) }
    {
        let source = self.source;
        let first = source[at];
        if let Some(&second) = source.get(at + 1) {
            if let Some(kind) = marks::pair_kind(edition, first, second) {
                return Lexeme::Token(kind, 2);
            }
        }
        Lexeme::Token(alone, 1)
    }

    // The lexeme at `at`, by the entry of the byte there. A word that stands there ends before the source does.
    fn lexeme_by_entry(&self, edition: Edition, at: usize) -> Lexeme
        requires { Bounded self.now.source.now at }
        ensures { as_lexeme result ≡ lexeme (edition_of edition) (drop at self.now.source.now) }
    {
        let source = self.source;
        match ByteEntry::of(source[at]) {
            ByteEntry::Letter(alone) => self.word(at, alone),
            ByteEntry::Digit => self.digits(at),
            ByteEntry::Mark(kind) => Lexeme::Token(kind, 1),
            ByteEntry::Longer(alone) => self.longer_mark(edition, at, alone),
            ByteEntry::Other => marks::mark_at(edition, source, at),
            ByteEntry::Slash => lexemes::slash_at(source, at),
            ByteEntry::Backtick => lexemes::string_at(source, at),
            ByteEntry::Space => lexemes::spaces_at(source, at),
            ByteEntry::Minus => lexemes::minus_at(edition, source, at),
        }
    }

    // The lexeme at `at`; `bounded` says that a word which stands there ends before the source does. A flag and not two functions, since
    // the pass asks in one place, whichever it is.
    pub(crate) fn lexeme(&self, edition: Edition, at: usize, bounded: bool) -> Lexeme
        requires { bounded ≡ true → Bounded self.now.source.now at }
        ensures { as_lexeme result ≡ lexeme (edition_of edition) (drop at self.now.source.now) }
    {
        if bounded {
            return self.lexeme_by_entry(edition, at);
        }
        lexemes::lexeme_at(edition, self.source, at)
    }
}
