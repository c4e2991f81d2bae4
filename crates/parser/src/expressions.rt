// The readers of expressions. They and the readers of statements hold each other. Of those that do, only `block` promises that the place which
// it answers stands: it follows from what they read.
#![tactic(auto, using(crate::proofs::Laws::Results::wide, crate::proofs::Laws::Results::arrived))]

ghost use Rattle.std.specs.Prelude.{◌≡◌, ◌+◌, true, [], ◌∷◌};
ghost use Rattle.lexer.specs.Tests.{among};
ghost use Rattle.lexer.specs.internal.Kinds.{ident, boolean, int};
ghost use Rattle.lexer.specs.internal.KindNumbers.{kind_number};
ghost use Rattle.tree.specs.internal.RowKindNumbers.{row_kind_number};
ghost use Rattle.grammar.specs.internal.Alternatives.{kind_alternative};
ghost use Rattle.grammar.specs.internal.Nonterminals.{expression as anExpression, expressions as expressionList, literal as aLiteral};
ghost use Rattle.grammar.specs.internal.Nonterminals.{selector as aSelector, arms as armList, arm as anArm, payload as aPayload};
ghost use Rattle.grammar.specs.internal.Nonterminals.{payloads3};
ghost use Rattle.parser.specs.internal.Steps.{step_at, next_kind, begins_part};
ghost use Rattle.parser.specs.internal.Readers.{Stands, Arrives, ReadsBy, ReadsTextsBy, ReadsKindsBy};
ghost use Rattle.parser.specs.internal.Operators.{Operation, Elements};

use crate::Place;
use crate::presence::Presence;
use crate::reading::Reading;
use crate::steps::close_row;
use crate::words::Words;
use grammar::forms::ExpressionForm as Form;
use lexer::{Refusal, TokenKind};
use tree::RowKind;

// The marks before and after the elements of a slice literal, and of an aggregate.
const BRACKETS: (TokenKind, TokenKind) = (TokenKind::Bar, TokenKind::RightBracket);

const BRACES: (TokenKind, TokenKind) = (TokenKind::LeftBrace, TokenKind::RightBrace);

// Rule 10: the most payloads that an arm has.
const MOST_PAYLOADS: usize = 3;

impl Reading<'_> {
    // An expression.
    #[cycle(expression_readers)]
    pub(crate) fn expression(
        &self,
        rows: &mut [u32],
        from: Place,
        left: usize,
    ) -> Result<Place, Refusal>
        requires { Stands self.now 1 from }
        ensures { ReadsBy self.now left 1 anExpression from rows.old result rows.new }
    {
        let Some(form) = grammar::expression_form(self.kind(from)) else {
            return Err(from.no_program());
        };
        let below = from.below(left)?;
        match form {
            Form::Literal => Ok(self.leaf(rows, from, RowKind::Literal)),
            Form::Name => Ok(self.leaf(rows, from, RowKind::Name)),
            Form::Binary => self.operation(rows, from, below, 2, RowKind::Binary),
            Form::Not => self.operation(rows, from, below, 1, RowKind::Not),
            Form::Return => self.operation(rows, from, below, 1, RowKind::Return),
            Form::Complement => self.operation(rows, from, below, 1, RowKind::Complement),
            Form::Try => self.try_or_closure(rows, from, below),
            Form::Sizeof => self.size_of(rows, from, below),
            Form::Conditional => self.operation(rows, from, below, 3, RowKind::Conditional),
            Form::Block => self.block(rows, from, left),
            Form::Call => self.call(rows, from, below),
            Form::Slice => self.elements(rows, from, below, BRACKETS, RowKind::Slice),
            Form::Aggregate => self.elements(rows, from, below, BRACES, RowKind::Aggregate),
            Form::Member => self.operation(rows, from, below, 2, RowKind::Member),
            Form::Cast => self.cast(rows, from, below),
            Form::Match => self.match_expression(rows, from, below),
        }
    }

    // A mark and so many expressions. It is told how many, since six forms differ in that and in their row alone.
    #[cycle(expression_readers)]
    fn operation(
        &self,
        rows: &mut [u32],
        from: Place,
        below: usize,
        operands: usize,
        kind: RowKind,
    ) -> Result<Place, Refusal>
        requires stands { Stands self.now 1 from }
        requires operation { Operation (kind_alternative anExpression (next_kind self.now.tokens.now (step_at from)))
            operands (row_kind_number kind) }
        ensures { ReadsBy self.now (below + 1) 1 anExpression from rows.old result rows.new }
    {
        let mut place = self.open(from);
        for _ in 0..operands {
            place = self.expression(rows, place, below)?;
        }
        Ok(close_row(rows, from, place, kind))
    }

    // A try or a closure, by rule 7.
    #[cycle(expression_readers)]
    fn try_or_closure(&self, rows: &mut [u32], from: Place, below: usize) -> Result<Place, Refusal>
        requires stands { Stands self.now 1 from }
        requires form { kind_alternative anExpression (next_kind self.now.tokens.now (step_at from)) ≡ 7 }
        ensures { ReadsBy self.now (below + 1) 1 anExpression from rows.old result rows.new }
    {
        let opened = self.open(from);
        if self.opens_closure(opened) {
            let listed = self.parameters(rows, opened, below, Presence::Required)?;
            let marked = self.take(listed, TokenKind::Arrow)?;
            let typed = self.read_type(rows, marked, below)?;
            let ended = self.block(rows, typed, below)?;
            return Ok(close_row(rows, from, ended, RowKind::Closure));
        }
        let tried = self.expression(rows, opened, below)?;
        Ok(close_row(rows, from, tried, RowKind::Try))
    }

    // The size of a type. It reads as `marked_type` does, and answers for an expression, so that one of both would be told its nonterminal.
    fn size_of(&self, rows: &mut [u32], from: Place, below: usize) -> Result<Place, Refusal>
        requires stands { Stands self.now 1 from }
        requires form { kind_alternative anExpression (next_kind self.now.tokens.now (step_at from)) ≡ 8 }
        ensures reads { ReadsKindsBy self.now (below + 1) 1 anExpression from rows.old result rows.new }
        ensures arrives { Arrives self.now result }
    {
        let opened = self.open(from);
        let typed = self.read_type(rows, opened, below)?;
        Ok(close_row(rows, from, typed, RowKind::Sizeof))
    }

    // A call: a name, type arguments where there are some, and expressions.
    #[cycle(expression_readers)]
    fn call(&self, rows: &mut [u32], from: Place, below: usize) -> Result<Place, Refusal>
        requires stands { Stands self.now 1 from }
        requires form { kind_alternative anExpression (next_kind self.now.tokens.now (step_at from)) ≡ 11 }
        ensures { ReadsBy self.now (below + 1) 1 anExpression from rows.old result rows.new }
    {
        let opened = self.open(from);
        let named = self.take(opened, TokenKind::Ident)?;
        let listed = self.optional_list(rows, named, below, Words::WithKeywords)?;
        let given = self.expressions(rows, listed, below)?;
        let ended = self.take(given, TokenKind::RightParen)?;
        Ok(close_row(rows, from, ended, RowKind::Call))
    }

    // A type and its elements between two marks: a slice literal, or an aggregate.
    #[cycle(expression_readers)]
    fn elements(
        &self,
        rows: &mut [u32],
        from: Place,
        below: usize,
        marks: (TokenKind, TokenKind),
        kind: RowKind,
    ) -> Result<Place, Refusal>
        requires stands { Stands self.now 1 from }
        requires elements { Elements (kind_alternative anExpression (next_kind self.now.tokens.now (step_at from)))
            (kind_number marks.0) (kind_number marks.1) (row_kind_number kind) }
        ensures { ReadsBy self.now (below + 1) 1 anExpression from rows.old result rows.new }
    {
        let opened = self.open(from);
        let typed = self.read_type(rows, opened, below)?;
        let marked = self.take(typed, marks.0)?;
        let held = self.expressions(rows, marked, below)?;
        let ended = self.take(held, marks.1)?;
        Ok(close_row(rows, from, ended, kind))
    }

    // A literal.
    pub(crate) fn literal(
        &self,
        rows: &mut [u32],
        from: Place,
        left: usize,
    ) -> Result<Place, Refusal>
        requires { Stands self.now 1 from }
        ensures reads { ReadsKindsBy self.now left 1 aLiteral from rows.old result rows.new }
        ensures arrives { Arrives self.now result }
    {
        if grammar::expression_form(self.kind(from)) != Some(Form::Literal) {
            return Err(from.no_program());
        }
        from.below(left)?;
        Ok(self.leaf(rows, from, RowKind::Literal))
    }

    // The INT after a cast to a pointer type, where there is one.
    fn selector(&self, rows: &mut [u32], from: Place, left: usize) -> Result<Place, Refusal>
        requires { Stands self.now 0 from }
        ensures reads { ReadsTextsBy self.now left 0 aSelector from rows.old result rows.new }
        ensures arrives { Arrives self.now result }
    {
        if self.zero_or_one(from) {
            return self.literal(rows, from, left);
        }
        Ok(from)
    }

    // A cast, with the INT that belongs to a pointer type by rule 8.
    #[cycle(expression_readers)]
    fn cast(&self, rows: &mut [u32], from: Place, below: usize) -> Result<Place, Refusal>
        requires stands { Stands self.now 1 from }
        requires form { kind_alternative anExpression (next_kind self.now.tokens.now (step_at from)) ≡ 15 }
        ensures { ReadsBy self.now (below + 1) 1 anExpression from rows.old result rows.new }
    {
        let opened = self.open(from);
        let pointer = self.next_is(opened, TokenKind::Star);
        let typed = self.read_type(rows, opened, below)?;
        let valued = self.expression(rows, typed, below)?;
        if pointer {
            let selected = self.selector(rows, valued, below)?;
            return Ok(close_row(rows, from, selected, RowKind::Cast));
        }
        Ok(close_row(rows, from, valued, RowKind::Cast))
    }

    // A match: an expression and its arms.
    #[cycle(expression_readers)]
    fn match_expression(
        &self,
        rows: &mut [u32],
        from: Place,
        below: usize,
    ) -> Result<Place, Refusal>
        requires stands { Stands self.now 1 from }
        requires form { kind_alternative anExpression (next_kind self.now.tokens.now (step_at from)) ≡ 16 }
        ensures { ReadsBy self.now (below + 1) 1 anExpression from rows.old result rows.new }
    {
        let opened = self.open(from);
        let matched = self.expression(rows, opened, below)?;
        let braced = self.take(matched, TokenKind::LeftBrace)?;
        let listed = self.arms(rows, braced, below)?;
        let ended = self.take(listed, TokenKind::RightBrace)?;
        Ok(close_row(rows, from, ended, RowKind::Match))
    }

    // Whether the next token is the head of an arm.
    fn begins_arm(&self, from: Place) -> bool
        ensures { result ≡ among (ident ∷ boolean ∷ []) (next_kind self.now.tokens.now (step_at from)) }
    {
        self.next_is_either(from, TokenKind::Ident, TokenKind::Boolean)
    }

    // As many arms as there are.
    #[cycle(expression_readers)]
    fn arms(&self, rows: &mut [u32], from: Place, left: usize) -> Result<Place, Refusal>
        requires { Stands self.now 0 from }
        ensures { ReadsBy self.now left 0 armList from rows.old result rows.new }
    {
        self.repeated(rows, from, left, Self::begins_arm, Self::arm)
    }

    // An arm: its head, its payloads and its expression.
    #[cycle(expression_readers)]
    fn arm(&self, rows: &mut [u32], from: Place, left: usize) -> Result<Place, Refusal>
        requires stands { Stands self.now 1 from }
        requires from_value { among (ident ∷ boolean ∷ []) (next_kind self.now.tokens.now (step_at from)) ≡ true }
        ensures { ReadsBy self.now left 1 anArm from rows.old result rows.new }
    {
        let below = from.below(left)?;
        let opened = self.open(from);
        let bound = self.payloads(rows, opened, below)?;
        let marked = self.take(bound, TokenKind::Arrow)?;
        let valued = self.expression(rows, marked, below)?;
        Ok(close_row(rows, from, valued, RowKind::Arm))
    }

    // A payload.
    fn payload(&self, rows: &mut [u32], from: Place, left: usize) -> Result<Place, Refusal>
        requires stands { Stands self.now 1 from }
        requires from_value { among (ident ∷ int ∷ []) (next_kind self.now.tokens.now (step_at from)) ≡ true }
        ensures reads { ReadsKindsBy self.now left 1 aPayload from rows.old result rows.new }
        ensures arrives { Arrives self.now result }
    {
        from.below(left)?;
        Ok(self.leaf(rows, from, RowKind::Payload))
    }

    // At most three payloads.
    fn payloads(&self, rows: &mut [u32], from: Place, left: usize) -> Result<Place, Refusal>
        requires { Stands self.now 0 from }
        ensures reads { ReadsKindsBy self.now left 0 payloads3 from rows.old result rows.new }
        ensures arrives { Arrives self.now result }
    {
        let mut place = from;
        for _ in 0..MOST_PAYLOADS {
            if !self.next_is_either(place, TokenKind::Ident, TokenKind::Int) {
                break;
            }
            place = self.payload(rows, place, left)?;
        }
        Ok(place)
    }

    // Whether the next token begins an expression.
    fn begins_expression(&self, from: Place) -> bool
        ensures { result ≡ begins_part anExpression self.now.tokens.now (step_at from) }
    {
        grammar::expression_form(self.kind(from)).is_some()
    }

    // As many expressions as there are.
    #[cycle(expression_readers)]
    fn expressions(&self, rows: &mut [u32], from: Place, left: usize) -> Result<Place, Refusal>
        requires { Stands self.now 0 from }
        ensures { ReadsBy self.now left 0 expressionList from rows.old result rows.new }
    {
        self.repeated(rows, from, left, Self::begins_expression, Self::expression)
    }
}
