// What the tokeniser asks of an edition of the grammar: the two points in which the lexical rules of editions differ.
// Two methods of one body, and not one method: each caller asks for the rule that it goes by, and the two rules are two equations.
ghost use Rattle.std.specs.Prelude.{◌≡◌};
ghost use Rattle.lexer.specs.internal.Editions.{edition_of, has_shifts};

use crate::Edition;

impl Edition {
    // Whether a `-` at once before a digit belongs to the number.
    pub(crate) fn is_signed(self) -> bool
        ensures { result ≡ (edition_of self).signed }
    {
        self == Edition::V17
    }

    // Whether `<<` is a mark, and so `>>`.
    pub(crate) fn has_shifts(self) -> bool
        ensures { result ≡ has_shifts (edition_of self) }
    {
        self == Edition::V17
    }
}
