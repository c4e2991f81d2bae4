// Words: what bracketed lists and instances of generic types hold.
#![tactic(auto, using(crate::proofs::Laws::Results::wide))]

ghost use Rattle.std.specs.Prelude.{◌≡◌, true, Ok};
ghost use Rattle.lexer.specs.Tests.{pick, among};
ghost use Rattle.grammar.specs.Grammars.{query};
ghost use Rattle.grammar.specs.internal.Nonterminals.{more_names, more_words, name_list, word_list, type_parameters, type_arguments};
ghost use Rattle.grammar.specs.internal.Productions.{opens_names, opens_words};
ghost use Rattle.parser.specs.internal.Steps.{step_at, step_of, AnswersKinds, word_kinds, WordsEnd, taken_word};
ghost use Rattle.parser.specs.internal.Readings.{ReadsNoRows};
ghost use Rattle.parser.specs.internal.Readers.{Stands, Arrives, ReadsKindsBy};
ghost use Rattle.parser.specs.internal.Words.{with_keywords};

use crate::Place;
use crate::reading::Reading;
use crate::steps::close_row;
use lexer::{Refusal, TokenKind};
use tree::RowKind;

// The kinds that a `match` names, as numbers: a token table holds numbers, as C lends it.
const IDENT: u32 = TokenKind::Ident as u32;

const BOOLEAN: u32 = TokenKind::Boolean as u32;

const KEYWORD: u32 = TokenKind::Keyword as u32;

// Which tokens count as words: a keyword is one in some places.
#[derive(Clone, Copy)]
pub(crate) enum Words {
    Plain,
    WithKeywords,
}

impl Words {
    // Whether a token of a kind is a word.
    fn has(self, kind: u32) -> bool
        ensures { result ≡ among (word_kinds (with_keywords self)) kind }
    {
        match kind {
            IDENT | BOOLEAN => true,
            KEYWORD => matches!(self, Words::WithKeywords),
            _ => false,
        }
    }
}

impl Reading<'_> {
    // Rule 2: whether a `[` comes next from which words run up to a `]`.
    fn opens_list(&self, from: Place, words: Words) -> bool
        requires { Stands self.now 0 from }
        ensures { AnswersKinds (query (pick (with_keywords words) opens_words opens_names))
            self.now.tokens.now (step_at from) result }
    {
        if self.next_is(from, TokenKind::LeftBracket) {
            let first = Place {
                token: from.token + 1,
                row: from.row,
            };
            let end = self.more_words(first, words);
            return end.token != first.token && self.next_is(end, TokenKind::RightBracket);
        }
        false
    }

    // Takes a word. This and `take` differ in their test alone: one that were told the test would have to ask that no end of tokens passes it.
    pub(crate) fn take_word(&self, from: Place, words: Words) -> Result<Place, Refusal>
        requires { Stands self.now 0 from }
        ensures answer { step_of result ≡ taken_word self.now.tokens.now (with_keywords words) (step_at from) }
        ensures arrives { Arrives self.now result }
    {
        if words.has(self.kind(from)) {
            return Ok(Place {
                token: from.token + 1,
                row: from.row,
            });
        }
        Err(from.no_program())
    }

    // As many words as there are. A `for` would need a second way out, at the end of the tokens, where there is no word anyway.
    pub(crate) fn more_words(&self, from: Place, words: Words) -> Place
        requires { Stands self.now 0 from }
        ensures reads { ReadsNoRows self.now.tokens.now 0 (pick (with_keywords words) more_words more_names)
            (step_at from) (step_at result) }
        ensures ends { WordsEnd (with_keywords words) self.now.tokens.now from.token result.token }
        ensures stands { Stands self.now 0 result }
    {
        let mut place = from;
        while words.has(self.kind(place)) {
            place.token += 1;
        }
        place
    }

    // A bracketed list of words.
    fn list(
        &self,
        rows: &mut [u32],
        from: Place,
        left: usize,
        words: Words,
    ) -> Result<Place, Refusal>
        requires stands { Stands self.now 0 from }
        requires opens { AnswersKinds (query (pick (with_keywords words) opens_words opens_names))
            self.now.tokens.now (step_at from) true }
        ensures reads { ReadsKindsBy self.now left 1 (pick (with_keywords words) word_list name_list)
            from rows.old result rows.new }
        ensures arrives { Arrives self.now result }
    {
        let below = from.below(left)?;
        let opened = self.open(from);
        let first = self.take_word(opened, words)?;
        let listed = self.more_words(first, words);
        let ended = self.take(listed, TokenKind::RightBracket)?;
        Ok(close_row(rows, from, ended, RowKind::List))
    }

    // A bracketed list of words, where one is opened: type parameters, or with keywords the type arguments of a call.
    pub(crate) fn optional_list(
        &self,
        rows: &mut [u32],
        from: Place,
        left: usize,
        words: Words,
    ) -> Result<Place, Refusal>
        requires { Stands self.now 0 from }
        ensures reads { ReadsKindsBy self.now left 0 (pick (with_keywords words) type_arguments type_parameters)
            from rows.old result rows.new }
        ensures arrives { Arrives self.now result }
    {
        if self.opens_list(from, words) {
            return self.list(rows, from, left, words);
        }
        Ok(from)
    }
}
