// The type of the answer. specs/ says which answer a source has and what is demanded of it; proofs/Theorem.antt states that the one
// meets the other.
#![tactic(auto)]

ghost use Rattle.std.specs.Prelude.{◌≡◌};
ghost use Rattle.lexer.specs.internal.RefusalNumbers.{reason_number};
ghost use Rattle.answer.specs.declared.Answer.TheVariants.{Refused};

use lexer::Refusal;

// The answer of a reading: the rows of the token table and of the tree table, or a refusal's number and place. It is no `Result` with a
// `Refusal`: document 01, the C interface and the definitions of specs/ know an answer by this shape and by numbers.
#[derive(Clone, Copy)]
pub enum Answer {
    Accepted(usize, usize),
    Refused(u32, usize),
}

impl From<Refusal> for Answer {
    ghost from_gives = { λ refusal answer. answer ≡ Refused (reason_number refusal.reason) refusal.place };

    // The answer that says a refusal by document 01's number of its reason.
    fn from(refusal: Refusal) -> Answer {
        Answer::Refused(refusal.reason.number(), refusal.place)
    }
}
