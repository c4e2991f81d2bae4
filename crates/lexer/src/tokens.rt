// Tokenising a whole source: its tokens counted, or put into a lent table, or its refusal.
ghost use Rattle.std.specs.Prelude.{◌≡◌};
ghost use Rattle.lexer.specs.internal.Editions.{edition_of};
ghost use Rattle.lexer.specs.internal.Tokenized.{as_scanned, scanned_values, counted, counted_values, tokenized, tokenized_values};
ghost use Rattle.lexer.specs.internal.Tokenized.{table_after};

use crate::{Edition, Reason, Refusal, passes, table};

// The most bytes that a source may have.
pub const SOURCE_LIMIT: usize = 1048576;

// The number of tokens of a source, or its refusal 1, 3 or 4.
pub fn count_tokens(edition: Edition, source: &[u8]) -> Result<usize, Refusal>
    ensures answer { as_scanned result ≡ counted (edition_of edition) source.now }
    ensures values { scanned_values (as_scanned result) ≡ counted_values (edition_of edition) source.now }
{
    if SOURCE_LIMIT < source.len() {
        return Err(Refusal::new(Reason::LongSource, 0));
    }
    passes::scan(edition, source, &mut [])
}

// The tokens of a source into the first rows of the table, or the refusal, which leaves the table as it is.
pub fn tokenize(edition: Edition, source: &[u8], table: &mut [u32]) -> Result<usize, Refusal>
    ensures answer { as_scanned result ≡ tokenized (edition_of edition) source.now table.old }
    ensures table { table.new ≡ table_after (edition_of edition) source.now table.old }
    ensures values { scanned_values (as_scanned result) ≡ tokenized_values (edition_of edition) source.now table.old }
{
    let count = count_tokens(edition, source)?;
    if table::room(table) < count {
        return Err(Refusal::new(Reason::FewTokenRows, count));
    }
    passes::scan(edition, source, table)
}
