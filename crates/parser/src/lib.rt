// From tokens to rows: the readers of types, of expressions, statements and blocks, and of declarations, each proved to give what
// the leftmost reading of its nonterminal gives.
#![tactic(auto)]

mod declarations;
mod expressions;
mod presence;
mod questions;
mod reading;
mod repeated;
mod statements;
mod steps;
mod types;
mod words;

pub use declarations::read_program;

// How far a reading has come: the next token, and the next row.
#[derive(Clone, Copy)]
pub struct Place {
    pub token: usize,
    pub row: usize,
}
