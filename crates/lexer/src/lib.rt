// From bytes to tokens: the tokeniser of NURL, proved to give exactly the tokens of the lexical rules in specs/.
#![tactic(auto)]

pub mod bytes;
mod editions;
mod entries;
pub mod kinds;
mod lexemes;
mod locations;
mod marks;
mod numbers;
mod passes;
pub mod refusals;
pub mod rows;
mod runs;
mod scanner;
mod table;
mod text;
mod tokens;
mod words;

pub use kinds::TokenKind;
pub use lexemes::lexeme_at;
pub use locations::location_at;
pub use numbers::{exponent_end, fraction_end};
pub use refusals::{Reason, Refusal};
pub use runs::run_end;
pub use table::{TokenRow, WIDTH, kind_at, put_token, room, size_at, start_at};
pub use text::text_at;
pub use tokens::{SOURCE_LIMIT, count_tokens, tokenize};
pub use words::{two_colons, word_at, word_end};

// An edition of the grammar.
#[derive(Clone, Copy, PartialEq, Eq)]
pub enum Edition {
    // 1.1, document 008.
    V11,
    // 1.7, document 009.
    V17,
}

// Where a byte of a source stands: its line and its column, both counted from 1.
#[derive(Clone, Copy, PartialEq, Eq)]
pub struct Location {
    pub line: usize,
    pub column: usize,
}

// A class of bytes that a lexeme can go on over.
#[derive(Clone, Copy, PartialEq, Eq)]
pub enum Class {
    Space,
    Digit,
    Word,
    Line,
    Text,
}

// What stands at a place of a source.
#[derive(Clone, Copy, PartialEq, Eq)]
pub enum Lexeme {
    // Nothing: the source ends here.
    End,
    // So many bytes that make no token.
    Skipped(usize),
    // A token of this kind and length.
    Token(TokenKind, usize),
    // A byte that begins no token, space or comment.
    BadByte,
    // A string that is not closed.
    OpenString,
}
