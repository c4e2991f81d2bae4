// The cases: a header of five numbers `S R N T W`, then S bytes that R times over are the source, then N bytes of names, then one
// byte 10. T and W are the lengths of the token table and of the tree table.
ghost use Rattle.std.specs.Prelude.{◌<◌, ◌≤◌, length, IfSome};
ghost use Rattle.std.specs.Iterator.{at_most};
ghost use Rattle.std.specs.Io.{ReadsAtMost};

use std::io;
use std::io::Read;

// The longest source of a case, and the largest tables.
pub(crate) const SOURCE_ROOM: usize = 1048577;

pub(crate) const TOKENS_ROOM: usize = 750000;

pub(crate) const TREE_ROOM: usize = 12000;

// A digit after more than this makes a number too large.
const MOST_BEFORE_DIGIT: usize = 2000000;

// A case: the piece that so many times over is its source, its names, and the lengths of its tables, for which there is room.
#[derive(Clone, Copy)]
pub(crate) struct Case<'a> {
    piece: &'a [u8],
    times: usize,
    pub(crate) names: &'a [u8],
    pub(crate) tokens: usize,
    pub(crate) tree: usize,
    ghost tokens_fit: { tokens ≤ 750000 },
    ghost tree_fits: { tree ≤ 12000 },
}

impl<'a> Case<'a> {
    // Writes the source into lent room, as much of it as there is room for: the piece once, and then as much again as stands there, so
    // that runs of bytes are copied and not one byte at a time.
    pub(crate) fn source<'r>(self, room: &'r mut [u8]) -> &'r [u8] {
        let size = self.piece.len().saturating_mul(self.times).min(room.len());
        let source = &mut room[..size];
        let mut done = self.piece.len().min(size);
        source[..done].copy_from_slice(&self.piece[..done]);
        while done < size {
            let more = done.min(size - done);
            source.copy_within(..more, done);
            done += more;
        }
        source
    }
}

// The cases of a text, in turn. What is not a case ends them.
#[derive(Drop)]
pub(crate) struct Cases<'a>(&'a [u8]);

impl<'a> Cases<'a> {
    pub(crate) fn new(text: &'a [u8]) -> Cases<'a> {
        Cases(text)
    }
}

impl<'a> Iterator for Cases<'a> {
    type Item = Case<'a>;

    ghost remaining = { λ s. at_most (length s.0.now) };

    fn next(&mut self) -> Option<Case<'a>> {
        let (size, text) = number(self.0)?;
        let (times, text) = number(text)?;
        let (name_size, text) = number(text)?;
        let (tokens, text) = number(text)?;
        let (tree, text) = number(text)?;
        let (piece, text) = text.split_at_checked(size)?;
        let (names, text) = text.split_at_checked(name_size)?;
        let (_, text) = text.split_first()?;
        if TOKENS_ROOM < tokens || TREE_ROOM < tree {
            return None;
        }
        self.0 = text;
        Some(Case {
            piece,
            times,
            names,
            tokens,
            tree,
        })
    }
}

// The decimal number at the front of a text, and what stands after the byte that ends it. There is none where no byte does, and none
// where it is too large.
fn number(text: &[u8]) -> Option<(usize, &[u8])>
    ensures { IfSome result (λ found. length found.1.now < length text.now) }
{
    let mut value = 0;
    for (i, b) in text.iter().enumerate() {
        if *b < b'0' {
            return Some((value, &text[i + 1..]));
        }
        if MOST_BEFORE_DIGIT < value {
            return None;
        }
        value = value * 10 + usize::from(*b - b'0');
    }
    None
}

// Reads until the buffer is full or the input ends, and answers how many bytes that is. Each call brings as many bytes as it likes, so no `for`
// counts the calls. Any call that fails is an error, where std's `io::copy` and `replies::read_script` try an interrupted one again.
pub(crate) fn read_full<R: Read>(input: &mut R, buffer: &mut [u8]) -> io::Result<usize>
    ensures { ReadsAtMost result buffer.new }
{
    let mut done = 0;
    while done < buffer.len() {
        let count = input.read(&mut buffer[done..])?;
        if count == 0 {
            return Ok(done);
        }
        done += count;
    }
    Ok(done)
}
