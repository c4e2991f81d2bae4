// The grammar of NURL as rules, and what every reading of them must be: the definitions are in specs/ and what is proved of them
// in proofs/. The code here is what a reader looks up for a token's kind.
#![tactic(auto)]

mod alternatives;
pub mod forms;
mod tables;

pub use alternatives::{declaration_form, expression_form, statement_form, type_form};
