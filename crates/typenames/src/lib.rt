// The type names of a source: the list of extra names, which a caller lends beside the source, and the names that the source declares.
#![tactic(auto)]

mod compare;
mod declarations;
mod entries;
mod filter;
mod list;
mod names;
mod prepared;

pub use filter::SLOTS;
pub use list::{NAME_LIMIT, check_names};
pub use names::is_type_name;
pub use prepared::{PREPARED_LIMIT, prepare};

// Which names are in force at a place: in grammar 1.7 those of the whole program, everywhere. A grammar in which a part of a program
// has names of its own adds a scope here.
#[derive(Clone, Copy)]
pub enum Scope {
    Program,
}
