// The readers of blocks and of statements. They and the readers of expressions hold each other. Of those that do, only `block` promises
// that the place which it answers stands: it follows from what they read.
#![tactic(auto, using(crate::proofs::Laws::Results::wide, crate::proofs::Laws::Results::arrived))]

ghost use Rattle.std.specs.Prelude.{◌≡◌, ◌+◌};
ghost use Rattle.grammar.specs.internal.Alternatives.{kind_alternative};
ghost use Rattle.grammar.specs.internal.Nonterminals.{block as aBlock, statements as statementList, statement as aStatement};
ghost use Rattle.parser.specs.internal.Steps.{step_at, next_kind, begins_part};
ghost use Rattle.parser.specs.internal.Readers.{Stands, Arrives, ReadsBy};

use crate::Place;
use crate::reading::Reading;
use crate::steps::close_row;
use grammar::forms::StatementForm;
use lexer::{Refusal, TokenKind};
use tree::RowKind;

impl Reading<'_> {
    // A block.
    #[cycle(expression_readers)]
    pub(crate) fn block(&self, rows: &mut [u32], from: Place, left: usize) -> Result<Place, Refusal>
        requires { Stands self.now 1 from }
        ensures reads { ReadsBy self.now left 1 aBlock from rows.old result rows.new }
        ensures arrives { Arrives self.now result }
    {
        if !self.next_is(from, TokenKind::LeftBrace) {
            return Err(from.no_program());
        }
        let below = from.below(left)?;
        let opened = self.open(from);
        let listed = self.statements(rows, opened, below)?;
        let ended = self.take(listed, TokenKind::RightBrace)?;
        Ok(close_row(rows, from, ended, RowKind::Block))
    }

    // Whether the next token begins a statement.
    fn begins_statement(&self, from: Place) -> bool
        ensures { result ≡ begins_part aStatement self.now.tokens.now (step_at from) }
    {
        grammar::statement_form(self.kind(from)).is_some()
    }

    // As many statements as there are.
    #[cycle(expression_readers)]
    fn statements(&self, rows: &mut [u32], from: Place, left: usize) -> Result<Place, Refusal>
        requires { Stands self.now 0 from }
        ensures { ReadsBy self.now left 0 statementList from rows.old result rows.new }
    {
        self.repeated(rows, from, left, Self::begins_statement, Self::statement)
    }

    // A statement.
    #[cycle(expression_readers)]
    fn statement(&self, rows: &mut [u32], from: Place, left: usize) -> Result<Place, Refusal>
        requires { Stands self.now 1 from }
        ensures { ReadsBy self.now left 1 aStatement from rows.old result rows.new }
    {
        let Some(form) = grammar::statement_form(self.kind(from)) else {
            return Err(from.no_program());
        };
        // An expression makes no row of its own as a statement, and so it takes no level.
        if form == StatementForm::Expression {
            return self.expression(rows, from, left);
        }
        let below = from.below(left)?;
        match form {
            StatementForm::Let => self.let_statement(rows, from, below),
            StatementForm::Assignment => self.assignment(rows, from, below),
            StatementForm::Defer => self.defer(rows, from, below),
            // The form that is left begins with a `~`.
            _ => self.tilde_statement(rows, from, below),
        }
    }

    // A let; by rule 3 its leading IDENT is its type if that is a type name, and else its name.
    #[cycle(expression_readers)]
    fn let_statement(&self, rows: &mut [u32], from: Place, below: usize) -> Result<Place, Refusal>
        requires stands { Stands self.now 1 from }
        requires form { kind_alternative aStatement (next_kind self.now.tokens.now (step_at from)) ≡ 2 }
        ensures { ReadsBy self.now (below + 1) 1 aStatement from rows.old result rows.new }
    {
        let opened = self.open(from);
        let mutable = self.take_if(opened, TokenKind::Tilde);
        let typed = if self.plain_name(mutable) {
            mutable
        } else {
            self.read_type(rows, mutable, below)?
        };
        let named = self.take(typed, TokenKind::Ident)?;
        let valued = self.expression(rows, named, below)?;
        Ok(close_row(rows, from, valued, RowKind::Let))
    }

    // A set of a name or of an element.
    #[cycle(expression_readers)]
    fn assignment(&self, rows: &mut [u32], from: Place, below: usize) -> Result<Place, Refusal>
        requires stands { Stands self.now 1 from }
        requires form { kind_alternative aStatement (next_kind self.now.tokens.now (step_at from)) ≡ 3 }
        ensures { ReadsBy self.now (below + 1) 1 aStatement from rows.old result rows.new }
    {
        let opened = self.open(from);
        if self.next_is(opened, TokenKind::Dot) {
            let marked = self.take(opened, TokenKind::Dot)?;
            let whole = self.expression(rows, marked, below)?;
            let index = self.expression(rows, whole, below)?;
            let valued = self.expression(rows, index, below)?;
            return Ok(close_row(rows, from, valued, RowKind::SetElement));
        }
        let named = self.take(opened, TokenKind::Ident)?;
        let valued = self.expression(rows, named, below)?;
        Ok(close_row(rows, from, valued, RowKind::SetName))
    }

    // A defer.
    #[cycle(expression_readers)]
    fn defer(&self, rows: &mut [u32], from: Place, below: usize) -> Result<Place, Refusal>
        requires stands { Stands self.now 1 from }
        requires form { kind_alternative aStatement (next_kind self.now.tokens.now (step_at from)) ≡ 4 }
        ensures { ReadsBy self.now (below + 1) 1 aStatement from rows.old result rows.new }
    {
        let opened = self.open(from);
        let ended = self.block(rows, opened, below)?;
        Ok(close_row(rows, from, ended, RowKind::Defer))
    }

    // A foreach, a loop or a complement, by rule 6.
    #[cycle(expression_readers)]
    fn tilde_statement(&self, rows: &mut [u32], from: Place, below: usize) -> Result<Place, Refusal>
        requires stands { Stands self.now 1 from }
        requires form { kind_alternative aStatement (next_kind self.now.tokens.now (step_at from)) ≡ 5 }
        ensures { ReadsBy self.now (below + 1) 1 aStatement from rows.old result rows.new }
    {
        let opened = self.open(from);
        if self.two_names(opened) {
            let named = self.take(opened, TokenKind::Ident)?;
            let listed = self.expression(rows, named, below)?;
            let ended = self.block(rows, listed, below)?;
            return Ok(close_row(rows, from, ended, RowKind::Foreach));
        }
        let tested = self.expression(rows, opened, below)?;
        if self.next_is(tested, TokenKind::LeftBrace) {
            let ended = self.block(rows, tested, below)?;
            return Ok(close_row(rows, from, ended, RowKind::While));
        }
        Ok(close_row(rows, from, tested, RowKind::Complement))
    }
}
