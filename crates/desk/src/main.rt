// The desk program: reads a script from standard input and prints the answer, and below an acceptance the rows of the tree.
#![tactic(auto)]

use std::io;

fn main(rt: HostRuntime) -> io::Result<()> {
    replies::serve(&mut rt.stdin(), &mut rt.stdout(), &mut rt.stderr())
}
