// The questions that the rules of document 01 ask about the tokens that follow.
ghost use Rattle.std.specs.Prelude.{◌≡◌, [], ◌∷◌};
ghost use Rattle.lexer.specs.internal.Kinds.{ident, arrow};
ghost use Rattle.lexer.specs.Text.{bytes};
ghost use Rattle.grammar.specs.Questions.{is_text};
ghost use Rattle.grammar.specs.Grammars.{query};
ghost use Rattle.grammar.specs.Nurl.{plain_name};
ghost use Rattle.grammar.specs.internal.Productions.{opens_struct, two_names, opens_closure, zero_or_one};
ghost use Rattle.parser.specs.internal.Steps.{step_at, kinds_at, asked_at, AnswersTexts, AnswersKinds};
ghost use Rattle.parser.specs.internal.Readings.{names_in};

use crate::Place;
use crate::reading::Reading;
use lexer::TokenKind;

// The kinds that a `match` names, as numbers: a token table holds numbers, as C lends it.
const KEYWORD: u32 = TokenKind::Keyword as u32;

const LEFT_PAREN: u32 = TokenKind::LeftParen as u32;

const LEFT_BRACKET: u32 = TokenKind::LeftBracket as u32;

const BANG: u32 = TokenKind::Bang as u32;

const QUESTION: u32 = TokenKind::Question as u32;

const STAR: u32 = TokenKind::Star as u32;

const ARROW: u32 = TokenKind::Arrow as u32;

impl Reading<'_> {
    // Rule 6: whether two IDENTs come next.
    pub(crate) fn two_names(&self, from: Place) -> bool
        ensures { AnswersKinds (query two_names) self.now.tokens.now (step_at from) result }
    {
        self.next_is(from, TokenKind::Ident) && self.stands(from.token + 1, TokenKind::Ident)
    }

    // Whether a struct's name comes next: an IDENT before `{` or `[`.
    pub(crate) fn opens_struct(&self, from: Place) -> bool
        ensures { AnswersKinds (query opens_struct) self.now.tokens.now (step_at from) result }
    {
        self.next_is(from, TokenKind::Ident)
            && (self.stands(from.token + 1, TokenKind::LeftBrace)
                || self.stands(from.token + 1, TokenKind::LeftBracket))
    }

    // Whether IDENT IDENT `→` comes next.
    fn names_before_arrow(&self, from: Place) -> bool
        ensures { result ≡ kinds_at self.now.tokens.now from.token (ident ∷ ident ∷ arrow ∷ []) }
    {
        self.next_is(from, TokenKind::Ident)
            && (self.stands(from.token + 1, TokenKind::Ident)
                && self.stands(from.token + 2, TokenKind::Arrow))
    }

    // Rule 7: whether what follows a `\` begins a closure.
    pub(crate) fn opens_closure(&self, from: Place) -> bool
        ensures { AnswersKinds (query opens_closure) self.now.tokens.now (step_at from) result }
    {
        match self.kind(from) {
            ARROW | KEYWORD | STAR | QUESTION | LEFT_BRACKET | BANG => true,
            LEFT_PAREN => self.stands(from.token + 1, TokenKind::At),
            _ => self.names_before_arrow(from),
        }
    }

    // Rule 8: whether an INT whose text is `0` or `1` comes next.
    pub(crate) fn zero_or_one(&self, from: Place) -> bool
        ensures { AnswersTexts (query zero_or_one) self.now.source.now self.now.tokens.now (step_at from) result }
    {
        self.next_is(from, TokenKind::Int)
            && is_bit(lexer::text_at(self.source, self.tokens, from.token))
    }

    // Rules 3 and 4: whether an IDENT comes next that is not a type name.
    pub(crate) fn plain_name(&self, from: Place) -> bool
        ensures { result ≡ asked_at plain_name self.now.source.now self.now.tokens.now
            (names_in self.now.source.now self.now.prepared.now self.now.tokens.now self.now.scope) (step_at from) }
    {
        self.next_is(from, TokenKind::Ident)
            && !typenames::is_type_name(
                self.source,
                self.prepared,
                self.tokens,
                self.scope,
                from.token,
            )
    }
}

// Whether a text is `0` or `1`.
fn is_bit(text: &[u8]) -> bool
    ensures { result ≡ is_text (bytes "0" ∷ bytes "1" ∷ []) text.now }
{
    text.len() == 1 && (text[0] == b'0' || text[0] == b'1')
}
