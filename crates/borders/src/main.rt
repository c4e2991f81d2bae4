// Runs what the desk program does on stored scripts around its limits, and on what cannot be read. What the desk would print to
// standard error is printed here to standard output, so that it is compared too.
#![tactic(auto)]

use std::io::{Error, Read};
use std::rt::Files;
use std::{fs, io};

// The error that the system has for a call on a descriptor that is not open.
const BAD_DESCRIPTOR: i32 = 9;

// What stands where no descriptor is open: every call fails.
#[derive(Drop)]
struct NoDescriptor;

impl Read for NoDescriptor {
    fn read(&mut self, _buf: &mut [u8]) -> io::Result<usize> {
        Err(Error::from_raw_os_error(BAD_DESCRIPTOR))
    }
}

// The scripts, by their files: around the most bytes, the most tokens and the most rows.
const SCRIPTS: [&str; 11] = [
    "empty",
    "bytes-65534",
    "bytes-65535",
    "bytes-65536",
    "bytes-65537",
    "tokens-4999",
    "tokens-5000",
    "tokens-5001",
    "rows-3999",
    "rows-4000",
    "rows-4001",
];

// Prints a name on a line of its own, and below it the answer to what the reader brings.
fn serve_named<R: Read>(rt: &impl Print, name: &str, input: &mut R) -> io::Result<()> {
    rt.println(name)?;
    replies::serve(input, &mut io::writer(rt), &mut io::writer(rt))
}

// The answer to what stands at a path.
fn serve_path(rt: &(impl Files + Print), name: &str, path: &str) -> io::Result<()> {
    match fs::open(rt, path) {
        Ok(mut input) => serve_named(rt, name, &mut input),
        Err(_) => serve_named(rt, name, &mut NoDescriptor),
    }
}

fn main(rt: HostRuntime) -> io::Result<()> {
    for name in SCRIPTS {
        serve_path(&rt, name, name)?;
    }
    // A directory can be opened and not read.
    serve_path(&rt, "a directory", ".")?;
    serve_named(&rt, "no descriptor", &mut NoDescriptor)
}
