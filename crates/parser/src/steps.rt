// The small steps that the readers are made of.
ghost use Rattle.std.specs.Prelude.{◌≡◌, ◌<◌, ◌+◌, ℕ, [], ◌∷◌, eqb, Err, IfErr, IfOk};
ghost use Rattle.lexer.specs.Tests.{among};
ghost use Rattle.lexer.specs.internal.TokenRows.{kind_at};
ghost use Rattle.lexer.specs.internal.KindNumbers.{kind_number};
ghost use Rattle.lexer.specs.Refusals.{refusal_number};
ghost use Rattle.lexer.specs.declared.refusals.Refusal.{Refusal};
ghost use Rattle.tree.specs.internal.RowKindNumbers.{row_kind_number};
ghost use Rattle.parser.specs.internal.Steps.{step_at, step_of, Closable, next_kind, refused_at, taken_kind, taken_if, opened, row_left};
ghost use Rattle.parser.specs.internal.Steps.{closed};
ghost use Rattle.parser.specs.internal.Readers.{Stands, Arrives};

use crate::Place;
use crate::reading::Reading;
use lexer::{Reason, Refusal, TokenKind};
use tree::{RowKind, TreeRow};

impl Place {
    // A refusal of the next token.
    pub(crate) fn no_program(self) -> Refusal
        ensures { step_of (Err result) ≡ refused_at (refusal_number "no program") (step_at self) }
    {
        Refusal::new(Reason::NoProgram, self.token)
    }

    // The levels that are left below a row which begins here.
    pub(crate) fn below(self, left: usize) -> Result<usize, Refusal>
        ensures goes { IfOk result (λ (below : ℕ). left ≡ below + 1) }
        ensures stops { IfErr result (λ refusal. (left ≡ 0) × (step_of (Err refusal) ≡ refused_at (refusal_number "too deep") (step_at self))) }
    {
        if left == 0 {
            return Err(Refusal::new(Reason::TooDeep, self.token));
        }
        Ok(left - 1)
    }
}

impl Reading<'_> {
    // Whether the token at an index is of this kind.
    pub(crate) fn stands(&self, index: usize, kind: TokenKind) -> bool
        ensures { result ≡ eqb (kind_at self.now.tokens.now index) (kind_number kind) }
    {
        lexer::kind_at(self.tokens, index) == kind.number()
    }

    // The kind of the next token, 0 at the end.
    pub(crate) fn kind(&self, from: Place) -> u32
        ensures { result ≡ next_kind self.now.tokens.now (step_at from) }
    {
        lexer::kind_at(self.tokens, from.token)
    }

    // Whether the next token is of this kind.
    pub(crate) fn next_is(&self, from: Place, kind: TokenKind) -> bool
        ensures { result ≡ eqb (next_kind self.now.tokens.now (step_at from)) (kind_number kind) }
    {
        self.kind(from) == kind.number()
    }

    // Whether the next token is of one of these two kinds.
    pub(crate) fn next_is_either(&self, from: Place, a: TokenKind, b: TokenKind) -> bool
        ensures { result ≡ among (kind_number a ∷ kind_number b ∷ []) (next_kind self.now.tokens.now (step_at from)) }
    {
        self.next_is(from, a) || self.next_is(from, b)
    }

    // Takes a token of this kind.
    pub(crate) fn take(&self, from: Place, kind: TokenKind) -> Result<Place, Refusal>
        requires { Stands self.now 1 from }
        ensures answer { step_of result ≡ taken_kind self.now.tokens.now (kind_number kind) (step_at from) }
        ensures arrives { Arrives self.now result }
    {
        if self.next_is(from, kind) {
            return Ok(Place {
                token: from.token + 1,
                row: from.row,
            });
        }
        Err(from.no_program())
    }

    // Takes the next token where it is of this kind.
    pub(crate) fn take_if(&self, from: Place, kind: TokenKind) -> Place
        requires { Stands self.now 0 from }
        ensures answer { step_at result ≡ taken_if self.now.tokens.now (kind_number kind) (step_at from) }
        ensures stands { Stands self.now 0 result }
    {
        if self.next_is(from, kind) {
            return Place {
                token: from.token + 1,
                row: from.row,
            };
        }
        from
    }

    // Takes the next token, and leaves the next row for what begins there.
    pub(crate) fn open(&self, from: Place) -> Place
        requires stands { Stands self.now 1 from }
        requires some { 0 < next_kind self.now.tokens.now (step_at from) }
        ensures answer { step_at result ≡ opened (step_at from) }
        ensures stands { Stands self.now 0 result }
    {
        let row = from.row + 1;
        Place {
            token: from.token + 1,
            row,
        }
    }

    // Leaves the next row for what begins at the next token.
    pub(crate) fn reserve(&self, from: Place) -> Place
        requires { Stands self.now 0 from }
        ensures answer { step_at result ≡ row_left (step_at from) }
        ensures stands { Stands self.now 1 result }
    {
        Place {
            token: from.token,
            row: from.row + 1,
        }
    }

    // A row of one token.
    pub(crate) fn leaf(&self, rows: &mut [u32], from: Place, kind: RowKind) -> Place
        requires stands { Stands self.now 1 from }
        requires some { 0 < next_kind self.now.tokens.now (step_at from) }
        ensures answer { step_at result ≡ opened (step_at from) }
        ensures stands { Stands self.now 0 result }
        ensures table { rows.new
            ≡ closed (row_kind_number kind) (step_at from) (opened (step_at from)) rows.old }
    {
        let to = self.open(from);
        close_row(rows, from, to, kind)
    }
}

// Writes the row of this kind over all that lies between two places, and answers the second.
pub(crate) fn close_row(rows: &mut [u32], from: Place, to: Place, kind: RowKind) -> Place
    requires { Closable (step_at from) (step_at to) }
    ensures answer { result ≡ to }
    ensures table { rows.new ≡ closed (row_kind_number kind) (step_at from) (step_at to) rows.old }
{
    let cover = (to.token - from.token) as u32;
    let count = (to.row - from.row) as u32;
    let first = from.token as u32;
    tree::put_row(
        rows,
        from.row,
        TreeRow {
            kind: kind.number(),
            first,
            cover,
            count,
        },
    );
    to
}
