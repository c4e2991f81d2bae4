// The tree table: the one place that knows how wide its rows are.
#![tactic(auto, unfolding(crate::specs::TreeTable::column_at))]

ghost use Rattle.std.specs.Prelude.{◌≡◌};
ghost use Rattle.tree.specs.TreeTable.{tree_room, cleared, tree_row_at};
ghost use Rattle.tree.specs.internal.Trees.{put_row, row_of};

use lexer::rows;

// How many numbers a row has.
pub const WIDTH: usize = 4;

// The numbers of a row, as C lends a table of numbers: its kind, the first token that it covers, how many it covers, and how many rows its
// subtree has with itself.
#[derive(Clone, Copy)]
pub struct TreeRow {
    pub kind: u32,
    pub first: u32,
    pub cover: u32,
    pub count: u32,
}

// How many whole rows the table has.
pub fn room(table: &[u32]) -> usize
    ensures { result ≡ tree_room table.now }
{
    rows::room::<WIDTH>(table)
}

// The kind of a row, 0 past the whole rows.
pub fn kind_at(table: &[u32], row: usize) -> u32
    ensures { result ≡ (tree_row_at table.now row).kind }
{
    rows::number_at::<WIDTH>(table, row, 0)
}

// The first token that a row covers.
pub fn first_at(table: &[u32], row: usize) -> u32
    ensures { result ≡ (tree_row_at table.now row).first }
{
    rows::number_at::<WIDTH>(table, row, 1)
}

// How many tokens a row covers.
pub fn cover_at(table: &[u32], row: usize) -> u32
    ensures { result ≡ (tree_row_at table.now row).cover }
{
    rows::number_at::<WIDTH>(table, row, 2)
}

// How many rows the subtree of a row has, with the row itself.
pub fn count_at(table: &[u32], row: usize) -> u32
    ensures { result ≡ (tree_row_at table.now row).count }
{
    rows::number_at::<WIDTH>(table, row, 3)
}

// Writes a row of the tree, where the table has room for it.
#[tactic(auto, unfolding(crate::specs::internal::Trees::put_row))]
pub fn put_row(table: &mut [u32], row: usize, put: TreeRow)
    ensures { table.new ≡ put_row row (row_of put) table.old }
{
    rows::put::<WIDTH>(table, row, [put.kind, put.first, put.cover, put.count]);
}

// Makes all whole rows zero.
#[tactic(auto, unfolding(crate::specs::TreeTable::cleared))]
pub fn clear(table: &mut [u32])
    ensures { table.new ≡ cleared table.old }
{
    let end = room(table) * WIDTH;
    table[..end].fill(0);
}
