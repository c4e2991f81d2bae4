// The readers of types, and of the parameters and fields that are declared by one.
#![tactic(auto, using(crate::proofs::Laws::Results::wide))]

ghost use Rattle.std.specs.Prelude.{◌≡◌, true, ◌+◌};
ghost use Rattle.lexer.specs.Tests.{pick};
ghost use Rattle.lexer.specs.internal.Kinds.{ident};
ghost use Rattle.tree.specs.internal.RowKindNumbers.{row_kind_number};
ghost use Rattle.grammar.specs.internal.Alternatives.{kind_alternative};
ghost use Rattle.grammar.specs.internal.Nonterminals.{types as typeList, type, parameters as parameterList, parameter as aParameter};
ghost use Rattle.grammar.specs.internal.Nonterminals.{fields as fieldList, field as a_field};
ghost use Rattle.parser.specs.internal.Steps.{step_at, step_of, next_kind, begins_part, taken_kind, taken_if};
ghost use Rattle.parser.specs.internal.Presence.{is_required};
ghost use Rattle.parser.specs.internal.Readers.{Stands, Arrives, ReadsKindsBy};
ghost use Rattle.parser.specs.internal.Operators.{TypeOperator};

use crate::Place;
use crate::presence::Presence;
use crate::reading::Reading;
use crate::steps::close_row;
use crate::words::Words;
use grammar::forms::TypeForm;
use lexer::{Refusal, TokenKind};
use tree::RowKind;

impl<'a> Reading<'a> {
    // Whether the next token begins a type. The same is asked of an expression and of a statement: three questions, and not one by a trait of
    // forms, since that trait and its impls are longer than the three.
    pub(crate) fn begins_type(&self, from: Place) -> bool
        ensures { result ≡ begins_part type self.now.tokens.now (step_at from) }
    {
        grammar::type_form(self.kind(from)).is_some()
    }

    // A type.
    #[cycle(type_readers)]
    pub(crate) fn read_type(
        &self,
        rows: &mut [u32],
        from: Place,
        left: usize,
    ) -> Result<Place, Refusal>
        requires { Stands self.now 1 from }
        ensures reads { ReadsKindsBy self.now left 1 type from rows.old result rows.new }
        ensures arrives { Arrives self.now result }
    {
        let Some(form) = grammar::type_form(self.kind(from)) else {
            return Err(from.no_program());
        };
        let below = from.below(left)?;
        match form {
            TypeForm::Base => Ok(self.leaf(rows, from, RowKind::BaseType)),
            TypeForm::Pointer => self.marked_type(rows, from, below, RowKind::Pointer),
            TypeForm::Optional => self.marked_type(rows, from, below, RowKind::Optional),
            TypeForm::Slice => self.marked_type(rows, from, below, RowKind::SliceType),
            TypeForm::Result => self.result_type(rows, from, below),
            TypeForm::Parenthesized => self.parenthesized(rows, from, below),
            TypeForm::Named => Ok(self.leaf(rows, from, RowKind::NamedType)),
        }
    }

    // A pointer, an optional or a slice type: its mark and a type.
    #[cycle(type_readers)]
    fn marked_type(
        &self,
        rows: &mut [u32],
        from: Place,
        below: usize,
        kind: RowKind,
    ) -> Result<Place, Refusal>
        requires stands { Stands self.now 1 from }
        requires mark { TypeOperator (kind_alternative type (next_kind self.now.tokens.now (step_at from)))
            1 (row_kind_number kind) }
        ensures reads { ReadsKindsBy self.now (below + 1) 1 type from rows.old result rows.new }
        ensures arrives { Arrives self.now result }
    {
        let opened = self.open(from);
        let typed = self.read_type(rows, opened, below)?;
        Ok(close_row(rows, from, typed, kind))
    }

    // A result type: its mark, the type of a success and the type of an error.
    #[cycle(type_readers)]
    fn result_type(&self, rows: &mut [u32], from: Place, below: usize) -> Result<Place, Refusal>
        requires stands { Stands self.now 1 from }
        requires form { kind_alternative type (next_kind self.now.tokens.now (step_at from)) ≡ 5 }
        ensures reads { ReadsKindsBy self.now (below + 1) 1 type from rows.old result rows.new }
        ensures arrives { Arrives self.now result }
    {
        let opened = self.open(from);
        let success = self.read_type(rows, opened, below)?;
        let error = self.read_type(rows, success, below)?;
        Ok(close_row(rows, from, error, RowKind::Result))
    }

    // A function type or an instance of a generic one, in parentheses.
    #[cycle(type_readers)]
    fn parenthesized(&self, rows: &mut [u32], from: Place, below: usize) -> Result<Place, Refusal>
        requires stands { Stands self.now 1 from }
        requires form { kind_alternative type (next_kind self.now.tokens.now (step_at from)) ≡ 6 }
        ensures reads { ReadsKindsBy self.now (below + 1) 1 type from rows.old result rows.new }
        ensures arrives { Arrives self.now result }
    {
        let opened = self.open(from);
        if self.next_is(opened, TokenKind::At) {
            let marked = self.take(opened, TokenKind::At)?;
            let answered = self.read_type(rows, marked, below)?;
            let listed = self.types(rows, answered, below)?;
            let ended = self.take(listed, TokenKind::RightParen)?;
            return Ok(close_row(rows, from, ended, RowKind::FunctionType));
        }
        let named = self.take(opened, TokenKind::Ident)?;
        let first = self.take_word(named, Words::WithKeywords)?;
        let listed = self.more_words(first, Words::WithKeywords);
        let ended = self.take(listed, TokenKind::RightParen)?;
        Ok(close_row(rows, from, ended, RowKind::Instance))
    }

    // As many types as there are.
    #[cycle(type_readers)]
    fn types(&self, rows: &mut [u32], from: Place, left: usize) -> Result<Place, Refusal>
        requires { Stands self.now 0 from }
        ensures reads { ReadsKindsBy self.now left 0 typeList from rows.old result rows.new }
        ensures arrives { Arrives self.now result }
    {
        self.repeated(rows, from, left, Self::begins_type, Self::read_type)
    }

    // Takes a name: one that must follow, or one that may.
    fn take_name(&self, from: Place, naming: Presence) -> Result<Place, Refusal>
        requires { Stands self.now 0 from }
        ensures answer { step_of result ≡ pick (is_required naming) (taken_kind self.now.tokens.now ident (step_at from))
            (taken_if self.now.tokens.now ident (step_at from)) }
        ensures arrives { Arrives self.now result }
    {
        match naming {
            Presence::Required => self.take(from, TokenKind::Ident),
            Presence::Optional => Ok(self.take_if(from, TokenKind::Ident)),
        }
    }

    // A parameter or a field: a type and its name. The name must stand after a parameter's type, and may after that of a field.
    fn parameter(
        &self,
        rows: &mut [u32],
        from: Place,
        left: usize,
        naming: Presence,
    ) -> Result<Place, Refusal>
        requires stands { Stands self.now 0 from }
        requires begins { begins_part type self.now.tokens.now (step_at from) ≡ true }
        ensures reads { ReadsKindsBy self.now left 1 (pick (is_required naming) aParameter a_field)
            from rows.old result rows.new }
        ensures arrives { Arrives self.now result }
    {
        let below = from.below(left)?;
        let inner = self.reserve(from);
        let typed = self.read_type(rows, inner, below)?;
        let named = self.take_name(typed, naming)?;
        Ok(close_row(rows, from, named, RowKind::Parameter))
    }

    // As many parameters or fields as there are.
    pub(crate) fn parameters(
        &self,
        rows: &mut [u32],
        from: Place,
        left: usize,
        naming: Presence,
    ) -> Result<Place, Refusal>
        requires { Stands self.now 0 from }
        ensures reads { ReadsKindsBy self.now left 0 (pick (is_required naming) parameterList fieldList)
            from rows.old result rows.new }
        ensures arrives { Arrives self.now result }
    {
        let read = |reading: &Reading, rows: &mut [u32], from: Place, left: usize| {
            reading.parameter(rows, from, left, naming)
        };
        self.repeated(rows, from, left, Self::begins_type, read)
    }
}
