// Which alternative of a nonterminal a token begins, by the token's kind.
ghost use Rattle.std.specs.Prelude.{◌≡◌, get_or, None};
ghost use Rattle.grammar.specs.internal.Nonterminals.{type, expression, statement, declaration};
ghost use Rattle.grammar.specs.internal.Alternatives.{kind_alternative};
ghost use Rattle.grammar.specs.internal.Forms.{type_form_number, expression_form_number, statement_form_number, declaration_form_number};

use crate::forms::{DeclarationForm, ExpressionForm, StatementForm, TypeForm};
use crate::tables;

// What a table has for a token's kind, a number as the token table holds it. What is not a kind begins nothing. The four functions below name
// a table and a nonterminal each, and are this one otherwise.
fn entry<F: Copy>(table: &[Option<F>; tables::SIZE], kind: u32) -> Option<F>
    ensures { result ≡ get_or table.now kind None }
{
    *table.get(kind as usize)?
}

// The alternative of a type that a token of a kind begins.
pub fn type_form(kind: u32) -> Option<TypeForm>
    ensures { type_form_number result ≡ kind_alternative type kind }
{
    entry(&tables::TYPE, kind)
}

// The alternative of an expression that a token of a kind begins.
pub fn expression_form(kind: u32) -> Option<ExpressionForm>
    ensures { expression_form_number result ≡ kind_alternative expression kind }
{
    entry(&tables::EXPRESSION, kind)
}

// The alternative of a statement that a token of a kind begins.
pub fn statement_form(kind: u32) -> Option<StatementForm>
    ensures { statement_form_number result ≡ kind_alternative statement kind }
{
    entry(&tables::STATEMENT, kind)
}

// The alternative of a declaration that a token of a kind begins.
pub fn declaration_form(kind: u32) -> Option<DeclarationForm>
    ensures { declaration_form_number result ≡ kind_alternative declaration kind }
{
    entry(&tables::DECLARATION, kind)
}
