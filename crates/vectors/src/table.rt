// A table of rows: what it holds before a case, and how it is printed after it.
ghost use Rattle.std.specs.Prelude.{◌<◌};

use std::io;
use std::io::Write;

// The most numbers of a table that are printed row by row.
const MOST_PRINTED: usize = 12000;

// The largest prime below 2 to the 32nd.
const DIGEST_PRIME: u64 = 4294967291;

// The numbers in a row, and the first number before a case.
#[derive(Clone, Copy)]
pub(crate) struct Layout {
    pub(crate) width: usize,
    pub(crate) base: u32,
    ghost width_nonzero: { 0 < width },
}

impl Layout {
    // Makes a table what it is before a case.
    pub(crate) fn fill(self, table: &mut [u32]) {
        for (i, n) in table.iter_mut().enumerate() {
            *n = self.before(i);
        }
    }

    // Number `i` of a table before a case. A table has at most 750,000 numbers, so nothing wraps.
    fn before(self, i: usize) -> u32 {
        self.base.wrapping_add((i % 4294967296) as u32)
    }

    // Prints a table: its rows, or its digest where it has too many to print.
    pub(crate) fn print<W: Write>(self, out: &mut W, table: &[u32]) -> io::Result<()> {
        if MOST_PRINTED < table.len() {
            return writeln!(out, "digest {}", digest(table));
        }
        self.print_rows(out, table)
    }

    // Prints whole rows, and the numbers after them on a line. Rows at the end that hold what they held before the case, or else zero,
    // are one line.
    fn print_rows<W: Write>(self, out: &mut W, table: &[u32]) -> io::Result<()> {
        let (rows, rest) = table.split_at(table.len() - table.len() % self.width);
        let count = rows.len() / self.width;
        let changed = self.rows_before(rows, |i| self.before(i));
        let nonzero = self.rows_before(rows, |_| 0);
        let (shown, word) = if changed < count {
            (changed, "unchanged")
        } else {
            (nonzero, "zero")
        };
        for row in rows.chunks_exact(self.width).take(shown) {
            print_line(out, row)?;
        }
        if shown < count {
            writeln!(out, "{word} {}", count - shown)?;
        }
        print_line(out, rest)
    }

    // How many rows stand before those at the end that hold at each place what `filled` says of it.
    fn rows_before<F: Fn(usize) -> u32>(self, rows: &[u32], filled: F) -> usize
        requires { F.IsAlwaysCallable filled }
    {
        let last = rows.iter().enumerate().rposition(|(i, n)| *n != filled(i));
        last.map_or(0, |i| i / self.width + 1)
    }
}

// Prints numbers on one line; none make no line.
fn print_line<W: Write>(out: &mut W, numbers: &[u32]) -> io::Result<()> {
    let Some((last, others)) = numbers.split_last() else {
        return Ok(());
    };
    for n in others {
        write!(out, "{n} ")?;
    }
    writeln!(out, "{last}")
}

// A number for a whole table, in which every number of it counts.
fn digest(table: &[u32]) -> u64 {
    let mut sum = 0;
    for n in table {
        sum = (sum * 31 + u64::from(*n)) % DIGEST_PRIME;
    }
    sum
}
