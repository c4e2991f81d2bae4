// Runs the stored cases of standard input through `nurl::read` and prints each answer with both whole tables.
#![tactic(auto)]

mod input;
mod output;
mod table;

use input::{Case, Cases, SOURCE_ROOM, TOKENS_ROOM, TREE_ROOM};
use nurl::Answer;
use output::Page;
use std::io;
use std::io::Write;
use table::Layout;

// The two tables: the numbers in a row, and the first number before a case.
const TOKENS: Layout = Layout {
    width: lexer::WIDTH,
    base: 900000,
};

const TREE: Layout = Layout {
    width: tree::WIDTH,
    base: 700000,
};

// The most bytes of standard input that are read.
const TEXT_ROOM: usize = 1400000;

// The most bytes that are written at once.
const PAGE_ROOM: usize = 65536;

// Prints an answer.
fn print_answer<W: Write>(out: &mut W, answer: Answer) -> io::Result<()> {
    match answer {
        Answer::Accepted(tokens, rows) => writeln!(out, "accepted {tokens} {rows}"),
        Answer::Refused(number, place) => writeln!(out, "refused {number} {place}"),
    }
}

// Runs a case, and prints the answer and the tables as they are after it.
fn run<W: Write>(
    case: Case<'_>,
    source: &mut [u8; SOURCE_ROOM],
    tokens: &mut [u32; TOKENS_ROOM],
    tree: &mut [u32; TREE_ROOM],
    out: &mut W,
) -> io::Result<()> {
    let source = case.source(source);
    let tokens = &mut tokens[..case.tokens];
    let tree = &mut tree[..case.tree];
    TOKENS.fill(tokens);
    TREE.fill(tree);
    let answer = nurl::read(source, case.names, tokens, tree);
    print_answer(out, answer)?;
    TOKENS.print(out, tokens)?;
    writeln!(out, "tree")?;
    TREE.print(out, tree)
}

fn main(rt: HostRuntime) -> io::Result<()> {
    let mut text = [0; TEXT_ROOM];
    let mut source = [0; SOURCE_ROOM];
    let mut tokens = [0; TOKENS_ROOM];
    let mut tree = [0; TREE_ROOM];
    let mut page = [0; PAGE_ROOM];
    let text = text.as_mut_slice();
    let size = input::read_full(&mut rt.stdin(), text)?;
    let mut page = Page::new(&rt, page.as_mut_slice());
    for case in Cases::new(&text[..size]) {
        run(case, &mut source, &mut tokens, &mut tree, &mut page)?;
    }
    page.flush()
}
