// The token table: the one place that knows how wide its rows are.
ghost use Rattle.std.specs.Prelude.{◌≡◌};
ghost use Rattle.lexer.specs.Table.{token_room};
ghost use Rattle.lexer.specs.internal.TokenRows.{kind_at, start_at, size_at};
ghost use Rattle.lexer.specs.internal.Leaves.{row_numbers, written};

use crate::rows;

// How many numbers a row has.
pub const WIDTH: usize = 3;

// The numbers of a row, as C lends a table of numbers: a token's kind, the offset of its first byte, and its size in bytes.
#[derive(Clone, Copy)]
pub struct TokenRow {
    pub kind: u32,
    pub start: u32,
    pub size: u32,
}

// How many whole rows the table has.
pub fn room(table: &[u32]) -> usize
    ensures { result ≡ token_room table.now }
{
    rows::room::<WIDTH>(table)
}

// The kind of a token, 0 past the whole rows.
pub fn kind_at(table: &[u32], row: usize) -> u32
    ensures { result ≡ kind_at table.now row }
{
    rows::number_at::<WIDTH>(table, row, 0)
}

// The offset of a token's first byte.
pub fn start_at(table: &[u32], row: usize) -> u32
    ensures { result ≡ start_at table.now row }
{
    rows::number_at::<WIDTH>(table, row, 1)
}

// How many bytes a token has.
pub fn size_at(table: &[u32], row: usize) -> u32
    ensures { result ≡ size_at table.now row }
{
    rows::number_at::<WIDTH>(table, row, 2)
}

// Writes a token's row where the table has it, and nothing where it has not.
pub fn put_token(table: &mut [u32], row: usize, token: TokenRow)
    ensures { table.new ≡ written table.old row (row_numbers token) }
{
    rows::put::<WIDTH>(table, row, [token.kind, token.start, token.size]);
}
