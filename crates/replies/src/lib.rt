// What the desk program does with a script that it is sent: it reads it whole and prints the answer.
#![tactic(auto)]

mod reply;
mod script;
mod service;

pub use reply::write_reply;
pub use script::read_script;
pub use service::serve;

// Why there is no script: a call that reads the input failed.
#[derive(Clone, Copy, Debug, PartialEq, Eq)]
pub struct Unreadable;
