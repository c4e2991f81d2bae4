// The refusals of document 01: why a source is refused, the number of each reason, and the place that is named.
ghost use Rattle.std.specs.Prelude.{◌≡◌};
ghost use Rattle.lexer.specs.internal.RefusalNumbers.{reason_number};
ghost use Rattle.lexer.specs.declared.refusals.Refusal.{Refusal};

// Why a source is refused.
#[derive(Clone, Copy, PartialEq, Eq)]
pub enum Reason {
    // A source over its limit.
    LongSource = 1,
    // A list of names over its limit, or an entry of it that is no name.
    BadNames = 2,
    // A byte that begins no token, space or comment.
    BadByte = 3,
    // A string that is not closed.
    OpenString = 4,
    // More tokens than the token table has rows.
    FewTokenRows = 5,
    // Tokens that are no program.
    NoProgram = 6,
    // Rows nested deeper than the level limit.
    TooDeep = 7,
    // More rows than the tree table has.
    FewTreeRows = 8,
}

impl Reason {
    // Document 01's number of a reason.
    pub fn number(self) -> u32
        ensures { result ≡ reason_number self }
    {
        self as u32
    }
}

// A refusal: the reason, and the place or the number that document 01's table names beside it.
#[derive(Clone, Copy, PartialEq, Eq)]
pub struct Refusal {
    pub reason: Reason,
    pub place: usize,
}

impl Refusal {
    // The refusal for a reason, with its place.
    pub fn new(reason: Reason, place: usize) -> Refusal
        ensures { ◌≡◌ {A = Refusal} result (record { reason = reason; place = place }) }
    {
        Refusal { reason, place }
    }
}
