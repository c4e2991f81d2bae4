// How far the bytes run that pass a test: one search for every test.
ghost use Rattle.std.specs.Prelude.{◌≡◌, ◌+◌, ◌-◌, ◌≤◌, ◌<◌, ℕ, Bool, true, false, length, drop};
ghost use Rattle.lexer.specs.Bytes.{is_space, is_digit, is_word_byte, run};
ghost use Rattle.lexer.specs.internal.Class.{member};
ghost use Rattle.lexer.specs.internal.Leaves.{is_not, block, Goes};

use crate::Class;
use crate::entries::ByteEntry;

// A test of one byte.
pub(crate) trait ByteTest {
    ghost holds: { Self → ℕ → Bool };

    fn passes(&self, b: u8) -> bool
        ensures { result ≡ holds self.now b };
}

// Whether a byte is a space. By four comparisons, spaces take 49 % more instructions.
#[derive(Clone, Copy)]
struct Space;

impl ByteTest for Space {
    ghost holds = { λ test. is_space };

    fn passes(&self, b: u8) -> bool {
        matches!(ByteEntry::of(b), ByteEntry::Space)
    }
}

// Whether a byte is a digit.
#[derive(Clone, Copy)]
pub(crate) struct Digit;

impl ByteTest for Digit {
    ghost holds = { λ test. is_digit };

    fn passes(&self, b: u8) -> bool {
        matches!(ByteEntry::of(b), ByteEntry::Digit)
    }
}

// Whether a word goes on over a byte.
#[derive(Clone, Copy)]
pub(crate) struct Word;

impl ByteTest for Word {
    ghost holds = { λ test. is_word_byte };

    fn passes(&self, b: u8) -> bool {
        match ByteEntry::of(b) {
            ByteEntry::Letter(_) | ByteEntry::Digit => true,
            _ => false,
        }
    }
}

// Whether a byte is another than the one that ends a run.
#[derive(Clone, Copy)]
struct Not(u8);

impl ByteTest for Not {
    ghost holds = { λ test. is_not test.0 };

    fn passes(&self, b: u8) -> bool {
        b != self.0
    }
}

// Where the bytes from `at` on that pass a test end. `take_while` and `count` would take 5 % more instructions for each byte of a comment.
pub(crate) fn end_of<T: ByteTest>(source: &[u8], at: usize, test: &T) -> usize
    ensures { result ≡ at + run (T.holds test.now) (drop at source.now) }
{
    for end in at..source.len() {
        if !test.passes(source[end]) {
            return end;
        }
    }
    at.max(source.len())
}

// The same where it is known that they end before the source does. By `end_of`, which asks at each byte whether the source has ended, comments
// take 11 % more instructions.
pub(crate) fn end_inside<T: ByteTest>(source: &[u8], at: usize, test: &T) -> usize
    requires { at + run (T.holds test.now) (drop at source.now) < length source.now }
    ensures { result ≡ at + run (T.holds test.now) (drop at source.now) }
{
    let mut end = at;
    while test.passes(source[end]) {
        end += 1;
    }
    end
}

// How many bytes are looked at in one turn.
const BLOCK: usize = 32;

// Whether none of the bytes of the block at `at` is `stop`, so that a run that is at `at` goes on after them.
fn block_passes(source: &[u8], at: usize, stop: u8) -> bool
    requires { at + block ≤ length source.now }
    ensures goes { result ≡ true → Goes (is_not stop) source.now at (at + block) }
    ensures source_in_bounds { result ≡ false → at + run (is_not stop) (drop at source.now) < length source.now }
{
    !source[at..at + BLOCK].contains(&stop)
}

// Where the bytes from `at` on that are not `stop` end, a block a turn while none of its bytes is `stop`. An index and not an iterator
// over blocks: where the last block ends, the search goes on.
fn stop_end(source: &[u8], at: usize, stop: u8) -> usize
    ensures { result ≡ at + run (is_not stop) (drop at source.now) }
{
    let last = source.len().saturating_sub(BLOCK - 1);
    let mut i = at;
    while i < last {
        if !block_passes(source, i, stop) {
            return end_inside(source, i, &Not(stop));
        }
        i += BLOCK;
    }
    end_of(source, i, &Not(stop))
}

// Where the bytes of a class that stand at `at` end. It is public, and promises the same of each `Class`, so that it is told which.
pub fn run_end(source: &[u8], at: usize, class: Class) -> usize
    ensures { result ≡ at + run (member class) (drop at source.now) }
{
    match class {
        Class::Word => end_of(source, at, &Word),
        Class::Space => end_of(source, at, &Space),
        Class::Digit => end_of(source, at, &Digit),
        Class::Line => stop_end(source, at, 10),
        Class::Text => stop_end(source, at, b'`'),
    }
}
