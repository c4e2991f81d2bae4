// A pass over a whole source: its tokens are counted up to its first fault, and written into as many rows as a lent table has.
ghost use Rattle.std.specs.Prelude.{◌≡◌, true, not, ◌+◌, ◌≤◌, ◌<◌, eqb, length, drop, get_or};
ghost use Rattle.lexer.specs.Tests.{and, pick};
ghost use Rattle.lexer.specs.Bytes.{is_word_byte};
ghost use Rattle.lexer.specs.Table.{source_limit, kept};
ghost use Rattle.lexer.specs.executable.Scans.{scan};
ghost use Rattle.lexer.specs.internal.Leaves.{blank};
ghost use Rattle.lexer.specs.internal.Editions.{edition_of};
ghost use Rattle.lexer.specs.internal.Entries.{Stop};
ghost use Rattle.lexer.specs.internal.Tokenized.{as_scanned, scanned};

use crate::runs::{ByteTest, Word};
use crate::scanner::Scanner;
use crate::table::TokenRow;
use crate::{Edition, Lexeme, Reason, Refusal, table};

impl Scanner<'_> {
    // The place after the blank at `at`, or `at` where none stands or nothing is known of the bytes there, as `bounded` says. It is told so by
    // the flag that `lexeme` is told.
    fn after_blank(&self, at: usize, bounded: bool) -> usize
        requires { bounded ≡ true → at < length self.now.source.now }
        ensures { result ≡ at + pick (and bounded (eqb (get_or self.now.source.now at 0) blank)) 1 0 }
    {
        if bounded && self.source[at] == b' ' {
            return at + 1;
        }
        at
    }

    // The pass, lexeme by lexeme. A word that stands before or at `stop` ends before the source does. Each turn goes on where its lexeme
    // ends, so that this is a `loop` with a place and no `for`.
    fn scan_lexemes(
        &self,
        edition: Edition,
        stop: usize,
        table: &mut [u32],
    ) -> Result<usize, Refusal>
        requires { Stop self.now.source.now stop }
        ensures value { as_scanned result ≡ scanned (scan (edition_of edition) self.now.source.now) }
        ensures table_after { table.new
            ≡ kept self.now.source.now (scan (edition_of edition) self.now.source.now).found table.old }
    {
        let mut at = 0;
        let mut count = 0;
        loop {
            let bounded = at < stop;
            let from = self.after_blank(at, bounded);
            match self.lexeme(edition, from, bounded) {
                Lexeme::Token(kind, len) => {
                    let kind = kind.number();
                    let start = from as u32;
                    let size = len as u32;
                    table::put_token(table, count, TokenRow { kind, start, size });
                    count += 1;
                    at = from + len;
                }
                Lexeme::Skipped(len) => at = from + len,
                Lexeme::End => return Ok(count),
                Lexeme::BadByte => return Err(Refusal::new(Reason::BadByte, from)),
                Lexeme::OpenString => return Err(Refusal::new(Reason::OpenString, from)),
            }
        }
    }

    // The place of the last byte over which no word goes on, or 0. No `Option`: it is asked only what stands before it, which is nothing
    // at 0, and with `None` each turn of the pass would ask two things for that one.
    #[tactic(auto, unfolding(crate::specs::Bytes::is_word_byte, crate::specs::Bytes::is_letter, crate::specs::Bytes::is_digit, crate::specs::Tests::or, crate::specs::Tests::and, crate::specs::Tests::between))]
    fn last_stop(&self) -> usize
        ensures { Stop self.now.source.now result }
    {
        self.source
            .iter()
            .rposition(
                |b|
                    ensures { result ≡ not (is_word_byte b.now) }
                { !Word.passes(*b) },
            )
            .unwrap_or(0)
    }
}

// A pass over a source.
pub(crate) fn scan(edition: Edition, source: &[u8], table: &mut [u32]) -> Result<usize, Refusal>
    requires { length source.now ≤ source_limit }
    ensures value { as_scanned result ≡ scanned (scan (edition_of edition) source.now) }
    ensures table_after { table.new ≡ kept source.now (scan (edition_of edition) source.now).found table.old }
{
    let scanner = Scanner { source };
    let stop = scanner.last_stop();
    scanner.scan_lexemes(edition, stop, table)
}
