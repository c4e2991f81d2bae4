// Tables of numbers in rows of one width: how many rows there are, a number of a row, and a row written.
ghost use Rattle.std.specs.Prelude.{◌≡◌, ◌<◌};
ghost use Rattle.lexer.specs.internal.Rows.{rows_in, number_at, with_row};

// How many whole rows a table has.
pub fn room<const WIDTH: usize>(table: &[u32]) -> usize
    requires { 0 < WIDTH }
    ensures { result ≡ rows_in WIDTH table.now }
{
    table.len() / WIDTH
}

// The number in a column of a row, and past the whole rows document 01's 0.
pub fn number_at<const WIDTH: usize>(table: &[u32], row: usize, column: usize) -> u32
    requires { column < WIDTH }
    ensures { result ≡ number_at WIDTH table.now row column }
{
    if row < table.len() / WIDTH {
        return table[row * WIDTH + column];
    }
    0
}

// Writes a row where the table has it, and nothing where it has not.
pub fn put<const WIDTH: usize>(table: &mut [u32], row: usize, numbers: [u32; WIDTH])
    requires { 0 < WIDTH }
    ensures { table.new ≡ with_row WIDTH table.old row numbers.entry }
{
    let rows = table.len() / WIDTH;
    if row < rows {
        let at = row * WIDTH;
        for column in 0..WIDTH {
            table[at + column] = numbers[column];
        }
    }
}
