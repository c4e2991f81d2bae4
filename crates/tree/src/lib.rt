// The tree table: the rows of a tree, parent first, in a lent table of numbers.
#![tactic(auto)]

pub mod row_kinds;
mod table;

pub use row_kinds::RowKind;
pub use table::{TreeRow, WIDTH, clear, count_at, cover_at, first_at, kind_at, put_row, room};
