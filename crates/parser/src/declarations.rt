// The readers of declarations, and of a whole program.
#![tactic(auto, using(crate::proofs::Laws::Results::wide))]

ghost use Rattle.std.specs.Prelude.{◌≡◌, true, false, not, [], ◌∷◌, ℕ, ◌+◌, eqb};
ghost use Rattle.lexer.specs.Tests.{pick};
ghost use Rattle.lexer.specs.internal.Kinds.{at as atSign, bar, left_brace};
ghost use Rattle.tree.specs.TreeTable.{cleared};
ghost use Rattle.grammar.specs.Grammars.{query, derived};
ghost use Rattle.grammar.specs.Nurl.{plain_name};
ghost use Rattle.grammar.specs.internal.Productions.{opens_struct};
ghost use Rattle.grammar.specs.internal.Alternatives.{kind_alternative};
ghost use Rattle.grammar.specs.internal.Nonterminals.{declaration as aDeclaration, functions as functionList, function as aFunction};
ghost use Rattle.grammar.specs.internal.Nonterminals.{methods as methodList, method as aMethod, variants as variantList};
ghost use Rattle.grammar.specs.internal.Nonterminals.{variant as aVariant, payload_types, program as aProgram};
ghost use Rattle.parser.specs.internal.Steps.{Tokens, Refused, step_at, step_of, next_kind, asked_at, AnswersKinds, payload_begins};
ghost use Rattle.parser.specs.internal.Steps.{opened};
ghost use Rattle.parser.specs.internal.Presence.{is_required};
ghost use Rattle.parser.specs.internal.Readings.{ReadsAll, ReadsWhole};
ghost use Rattle.parser.specs.internal.Readers.{Stands, Arrives, ReadsBy, ReadsKindsBy, names_of};

use crate::Place;
use crate::presence::Presence;
use crate::reading::Reading;
use crate::steps::close_row;
use crate::words::Words;
use grammar::forms::DeclarationForm;
use lexer::{Refusal, TokenKind};
use tree::RowKind;
use typenames::Scope;

// The kind of the place after the last token, document 01's 0 for what is past a table.
const END: u32 = 0;

impl<'a> Reading<'a> {
    // A declaration.
    fn declaration(&self, rows: &mut [u32], from: Place, left: usize) -> Result<Place, Refusal>
        requires { Stands self.now 1 from }
        ensures reads { ReadsBy self.now left 1 aDeclaration from rows.old result rows.new }
        ensures arrives { Arrives self.now result }
    {
        let Some(form) = grammar::declaration_form(self.kind(from)) else {
            return Err(from.no_program());
        };
        let below = from.below(left)?;
        match form {
            DeclarationForm::Import => self.import(rows, from, below),
            DeclarationForm::Foreign => self.foreign(rows, from, below),
            DeclarationForm::Function => self.function(rows, from, left, Presence::Required),
            DeclarationForm::Definition => self.definition(rows, from, below),
            DeclarationForm::Interface => self.interface(rows, from, below),
        }
    }

    // An import.
    fn import(&self, rows: &mut [u32], from: Place, below: usize) -> Result<Place, Refusal>
        requires stands { Stands self.now 1 from }
        requires form { kind_alternative aDeclaration (next_kind self.now.tokens.now (step_at from)) ≡ 1 }
        ensures reads { ReadsKindsBy self.now (below + 1) 1 aDeclaration from rows.old result rows.new }
        ensures arrives { Arrives self.now result }
    {
        let opened = self.open(from);
        let sourced = self.take(opened, TokenKind::String)?;
        let named = self.take_if(sourced, TokenKind::Ident);
        Ok(close_row(rows, from, named, RowKind::Import))
    }

    // A foreign function.
    fn foreign(&self, rows: &mut [u32], from: Place, below: usize) -> Result<Place, Refusal>
        requires stands { Stands self.now 1 from }
        requires form { kind_alternative aDeclaration (next_kind self.now.tokens.now (step_at from)) ≡ 2 }
        ensures reads { ReadsKindsBy self.now (below + 1) 1 aDeclaration from rows.old result rows.new }
        ensures arrives { Arrives self.now result }
    {
        let opened = self.open(from);
        let sourced = self.take(opened, TokenKind::String)?;
        let marked = self.take(sourced, TokenKind::At)?;
        let named = self.take(marked, TokenKind::Ident)?;
        let listed = self.parameters(rows, named, below, Presence::Optional)?;
        let arrowed = self.take(listed, TokenKind::Arrow)?;
        let typed = self.read_type(rows, arrowed, below)?;
        Ok(close_row(rows, from, typed, RowKind::Foreign))
    }

    // A function: its header, and its body where it has one. It is inlined into its two callers, since a reading is faster so.
    #[inline(always)]
    fn function(
        &self,
        rows: &mut [u32],
        from: Place,
        left: usize,
        bodies: Presence,
    ) -> Result<Place, Refusal>
        requires stands { Stands self.now 1 from }
        requires at_sign { next_kind self.now.tokens.now (step_at from) ≡ atSign }
        ensures reads { ReadsBy self.now left 1 (pick (is_required bodies) aFunction aMethod) from rows.old result rows.new }
        ensures arrives { Arrives self.now result }
    {
        let below = from.below(left)?;
        let opened = self.open(from);
        let named = self.take(opened, TokenKind::Ident)?;
        let listed = self.optional_list(rows, named, below, Words::Plain)?;
        let given = self.parameters(rows, listed, below, Presence::Required)?;
        let arrowed = self.take(given, TokenKind::Arrow)?;
        let typed = self.read_type(rows, arrowed, below)?;
        if self.lacks_body(typed, bodies) {
            return Ok(close_row(rows, from, typed, RowKind::Header));
        }
        let ended = self.block(rows, typed, below)?;
        Ok(close_row(rows, from, ended, RowKind::Function))
    }

    // Whether a function ends with its header: its body may be missing, and is.
    fn lacks_body(&self, from: Place, bodies: Presence) -> bool
        ensures { result ≡ pick (is_required bodies) false (not (eqb (next_kind self.now.tokens.now (step_at from)) left_brace)) }
    {
        match bodies {
            Presence::Required => false,
            Presence::Optional => !self.next_is(from, TokenKind::LeftBrace),
        }
    }

    // Whether the next token begins a function, or the header of one.
    fn begins_function(&self, from: Place) -> bool
        ensures { result ≡ eqb (next_kind self.now.tokens.now (step_at from)) atSign }
    {
        self.next_is(from, TokenKind::At)
    }

    // As many functions as there are.
    fn functions(
        &self,
        rows: &mut [u32],
        from: Place,
        left: usize,
        bodies: Presence,
    ) -> Result<Place, Refusal>
        requires { Stands self.now 0 from }
        ensures reads { ReadsBy self.now left 0 (pick (is_required bodies) functionList methodList) from rows.old result rows.new }
        ensures arrives { Arrives self.now result }
    {
        let read = |reading: &Reading, rows: &mut [u32], from: Place, left: usize| {
            reading.function(rows, from, left, bodies)
        };
        self.repeated(rows, from, left, Self::begins_function, read)
    }

    // A trait, or the implementation of one for a type.
    fn interface(&self, rows: &mut [u32], from: Place, below: usize) -> Result<Place, Refusal>
        requires stands { Stands self.now 1 from }
        requires form { kind_alternative aDeclaration (next_kind self.now.tokens.now (step_at from)) ≡ 5 }
        ensures reads { ReadsBy self.now (below + 1) 1 aDeclaration from rows.old result rows.new }
        ensures arrives { Arrives self.now result }
    {
        let opened = self.open(from);
        let named = self.take(opened, TokenKind::Ident)?;
        let listed = self.optional_list(rows, named, below, Words::Plain)?;
        if self.next_is(listed, TokenKind::LeftBrace) {
            let braced = self.take(listed, TokenKind::LeftBrace)?;
            let held = self.functions(rows, braced, below, Presence::Optional)?;
            let ended = self.take(held, TokenKind::RightBrace)?;
            return Ok(close_row(rows, from, ended, RowKind::Trait));
        }
        let typed = self.read_type(rows, listed, below)?;
        let braced = self.take(typed, TokenKind::LeftBrace)?;
        let held = self.functions(rows, braced, below, Presence::Required)?;
        let ended = self.take(held, TokenKind::RightBrace)?;
        Ok(close_row(rows, from, ended, RowKind::Impl))
    }

    // A struct, an enum or a constant, by what follows its `:`.
    fn definition(&self, rows: &mut [u32], from: Place, below: usize) -> Result<Place, Refusal>
        requires stands { Stands self.now 1 from }
        requires form { kind_alternative aDeclaration (next_kind self.now.tokens.now (step_at from)) ≡ 4 }
        ensures reads { ReadsBy self.now (below + 1) 1 aDeclaration from rows.old result rows.new }
        ensures arrives { Arrives self.now result }
    {
        let opened = self.open(from);
        if self.opens_struct(opened) {
            return self.structure(rows, from, below);
        }
        if self.next_is(opened, TokenKind::Bar) {
            return self.enumeration(rows, from, below);
        }
        self.constant(rows, from, below)
    }

    // A struct.
    fn structure(&self, rows: &mut [u32], from: Place, below: usize) -> Result<Place, Refusal>
        requires stands { Stands self.now 1 from }
        requires form { kind_alternative aDeclaration (next_kind self.now.tokens.now (step_at from)) ≡ 4 }
        requires opens { AnswersKinds (query opens_struct) self.now.tokens.now (opened (step_at from)) true }
        ensures reads { ReadsKindsBy self.now (below + 1) 1 aDeclaration from rows.old result rows.new }
        ensures arrives { Arrives self.now result }
    {
        let opened = self.open(from);
        let named = self.take(opened, TokenKind::Ident)?;
        let listed = self.optional_list(rows, named, below, Words::Plain)?;
        let braced = self.take(listed, TokenKind::LeftBrace)?;
        let held = self.parameters(rows, braced, below, Presence::Optional)?;
        let ended = self.take(held, TokenKind::RightBrace)?;
        Ok(close_row(rows, from, ended, RowKind::Struct))
    }

    // An enum.
    fn enumeration(&self, rows: &mut [u32], from: Place, below: usize) -> Result<Place, Refusal>
        requires stands { Stands self.now 1 from }
        requires form { kind_alternative aDeclaration (next_kind self.now.tokens.now (step_at from)) ≡ 4 }
        requires bar { next_kind self.now.tokens.now (opened (step_at from)) ≡ bar }
        ensures reads { ReadsBy self.now (below + 1) 1 aDeclaration from rows.old result rows.new }
        ensures arrives { Arrives self.now result }
    {
        let opened = self.open(from);
        let marked = self.take(opened, TokenKind::Bar)?;
        let named = self.take(marked, TokenKind::Ident)?;
        let braced = self.take(named, TokenKind::LeftBrace)?;
        let held = self.variants(rows, braced, below)?;
        let ended = self.take(held, TokenKind::RightBrace)?;
        Ok(close_row(rows, from, ended, RowKind::Enum))
    }

    // A constant.
    fn constant(&self, rows: &mut [u32], from: Place, below: usize) -> Result<Place, Refusal>
        requires stands { Stands self.now 1 from }
        requires form { kind_alternative aDeclaration (next_kind self.now.tokens.now (step_at from)) ≡ 4 }
        requires opens { AnswersKinds (query opens_struct) self.now.tokens.now (opened (step_at from)) false }
        requires bar { eqb (next_kind self.now.tokens.now (opened (step_at from))) bar ≡ false }
        ensures reads { ReadsKindsBy self.now (below + 1) 1 aDeclaration from rows.old result rows.new }
        ensures arrives { Arrives self.now result }
    {
        let opened = self.open(from);
        let mutable = self.take_if(opened, TokenKind::Tilde);
        let typed = self.read_type(rows, mutable, below)?;
        let named = self.take(typed, TokenKind::Ident)?;
        let valued = self.literal(rows, named, below)?;
        Ok(close_row(rows, from, valued, RowKind::Constant))
    }

    // As many variants as there are; by rule 4 each begins with a name that is not a type name.
    fn variants(&self, rows: &mut [u32], from: Place, left: usize) -> Result<Place, Refusal>
        requires { Stands self.now 0 from }
        ensures reads { ReadsBy self.now left 0 variantList from rows.old result rows.new }
        ensures arrives { Arrives self.now result }
    {
        self.repeated(rows, from, left, Self::plain_name, Self::variant)
    }

    // A variant: its name and its payload types.
    fn variant(&self, rows: &mut [u32], from: Place, left: usize) -> Result<Place, Refusal>
        requires stands { Stands self.now 0 from }
        requires named { asked_at plain_name self.now.source.now self.now.tokens.now (names_of self.now) (step_at from) ≡ true }
        ensures reads { ReadsBy self.now left 1 aVariant from rows.old result rows.new }
        ensures arrives { Arrives self.now result }
    {
        let below = from.below(left)?;
        let inner = self.reserve(from);
        let named = self.take(inner, TokenKind::Ident)?;
        let held = self.payload_types(rows, named, below)?;
        Ok(close_row(rows, from, held, RowKind::Variant))
    }

    // Rule 4: whether the next token begins a payload's type.
    fn begins_payload_type(&self, from: Place) -> bool
        ensures { result ≡ payload_begins self.now.source.now self.now.tokens.now (names_of self.now) (step_at from) }
    {
        !self.plain_name(from) && self.begins_type(from)
    }

    // As many payload types as there are.
    fn payload_types(&self, rows: &mut [u32], from: Place, left: usize) -> Result<Place, Refusal>
        requires { Stands self.now 0 from }
        ensures reads { ReadsBy self.now left 0 payload_types from rows.old result rows.new }
        ensures arrives { Arrives self.now result }
    {
        self.repeated(rows, from, left, Self::begins_payload_type, Self::read_type)
    }

    // A program: as many declarations as there are, below its row.
    fn program(&self, rows: &mut [u32], left: usize) -> Result<Place, Refusal>
        ensures { ReadsAll (derived aProgram ∷ []) self.now.source.now self.now.prepared.now self.now.tokens.now
            self.now.scope left rows.old (step_of result) rows.new }
    {
        let from = Place { token: 0, row: 0 };
        let below = from.below(left)?;
        let mut place = self.reserve(from);
        // A loop of its own: below a program's row there is a row more than `repeated` allows for.
        while grammar::declaration_form(self.kind(place)).is_some() {
            place = self.declaration(rows, place, below)?;
        }
        Ok(close_row(rows, from, place, RowKind::Program))
    }

    // The whole program: as many declarations as there are, up to the end of the tokens.
    fn whole_program(&self, rows: &mut [u32], left: usize) -> Result<Place, Refusal>
        ensures { ReadsWhole self.now.source.now self.now.prepared.now self.now.tokens.now self.now.scope left
            rows.old (step_of result) rows.new }
    {
        let end = self.program(rows, left)?;
        if self.kind(end) == END {
            return Ok(end);
        }
        Err(end.no_program())
    }
}

// Reads a whole program into the whole rows of the tree table. A refusal leaves them all zero.
pub fn read_program(
    source: &[u8],
    prepared: &[u8],
    tokens: &[u32],
    rows: &mut [u32],
    scope: Scope,
    left: usize,
) -> Result<Place, Refusal>
    requires { Tokens tokens.now }
    ensures reads { ReadsWhole source.now prepared.now tokens.now scope left
        rows.old (step_of result) rows.new }
    ensures refused { (number place : ℕ) → step_of result ≡ Refused number place → rows.new ≡ cleared rows.old }
{
    let reading = Reading {
        source,
        prepared,
        tokens,
        scope,
    };
    let end = tree::room(rows) * tree::WIDTH;
    let read = reading.whole_program(&mut rows[..end], left);
    let refused = read.is_err();
    if refused {
        tree::clear(rows);
    }
    read
}
