// The loop of the lists that make rows, but that of a program. The test and the reader are passed and not a trait of what is listed, since an
// impl of a trait may not lead back to a list of itself in a cycle of calls.
ghost use Rattle.std.specs.Prelude.{ℕ, List};
ghost use Rattle.grammar.specs.Grammars.{Names};
ghost use Rattle.parser.specs.internal.Steps.{step_at, step_of};
ghost use Rattle.parser.specs.internal.Readers.{Stands, Arrives, CanRepeat, Repeats, ReadsAt};

use crate::Place;
use crate::reading::Reading;
use lexer::Refusal;

impl<'a> Reading<'a> {
    // As many parts as there are, each read where a test says that one begins. It goes on where the part before ended, so that no `for` counts.
    #[inline(always)]
    pub(crate) fn repeated<
        B: Fn(&Reading<'a>, Place) -> bool,
        R: Fn(&Reading<'a>, &mut [u32], Place, usize) -> Result<Place, Refusal>,
    >(
        &self,
        rows: &mut [u32],
        from: Place,
        left: usize,
        begins: B,
        read: R,
    ) -> Result<Place, Refusal>
        requires stands { Stands self.now 0 from }
        requires asks { B.IsAlwaysCallable begins }
        requires each { CanRepeat self.now left (B.post begins) (R.pre read) (R.post read) }
        ensures reads { (source : List ℕ) (e : Names) (x : ℕ) → Repeats self.now source e left x (B.post begins) (R.post read)
            → ReadsAt self.now source e left x (step_at from) rows.old (step_of result) rows.new }
        ensures arrives { Arrives self.now result }
    {
        let mut place = from;
        while begins(self, place) {
            place = read(self, rows, place, left)?;
        }
        Ok(place)
    }
}
