// The desk program's whole job on a reader and two writers: a script in, its answer out, or word that it cannot be read.
ghost use Rattle.std.specs.Prelude.{OnOk};
ghost use Rattle.replies.specs.Served.{Served};

use crate::{reply, script};
use std::io;
use std::io::{Read, Write};

// One byte more than a script may have, so that a longer one shows.
const SCRIPT_ROOM: usize = 65536;

// Reads a script from `input` and prints its answer to `output`. Where the input cannot be read, nothing is printed there, and a line
// that says so is printed to `errors`; that is no error of this function. A write that fails is one.
pub fn serve<R: Read, W: Write, E: Write>(
    input: &mut R,
    output: &mut W,
    errors: &mut E,
) -> io::Result<()>
    ensures { OnOk result (Served (R.remaining input.old) (W.contents output.old) (W.contents output.new)
        (E.contents errors.old) (E.contents errors.new)) }
{
    let mut buffer = [0; SCRIPT_ROOM];
    let Ok(len) = script::read_script(input, &mut buffer) else {
        return errors.write_all(b"unreadable\n");
    };
    let mut text = [0; reply::TEXT_ROOM];
    let size = reply::write_reply(&buffer[..len], &mut text);
    output.write_all(&text[..size])
}
