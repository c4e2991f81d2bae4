// Reading a script. A call that fails is never taken for the end of the input.
ghost use Rattle.std.specs.Prelude.{◌+◌, ◌^◌, ◌<◌, length, take, IfOk};
ghost use Rattle.std.specs.Io.KnownBytes.{Consumes, IsAtEnd};
ghost use Rattle.replies.specs.internal.Input.{AfterCall, ScriptWithin};

use crate::Unreadable;
use std::io;
use std::io::{ErrorKind, Read};
use std::ops::ControlFlow;

// How often a call that a signal interrupts is tried again for one script. A loop that is proved has to end.
const RETRIES: usize = 1000000;

// How far reading has come: so many bytes are read, and so many interrupted calls may still be tried again.
#[derive(Clone, Copy)]
pub(crate) struct Reading {
    done: usize,
    retries: usize,
}

impl Reading {
    // What follows from a call: reading goes on, the input has ended after so many bytes, or it cannot be read.
    fn after_call(self, call: io::Result<usize>) -> Result<ControlFlow<usize, Reading>, Unreadable>
        requires { IfOk call (λ count. self.done + count < 2 ^ 64) }
        ensures { AfterCall self call result }
    {
        match call {
            Ok(0) => Ok(ControlFlow::Break(self.done)),
            Ok(count) => Ok(ControlFlow::Continue(Reading {
                done: self.done + count,
                ..self
            })),
            Err(error) if error.kind() == ErrorKind::Interrupted && 0 < self.retries => {
                Ok(ControlFlow::Continue(Reading {
                    retries: self.retries - 1,
                    ..self
                }))
            }
            Err(_) => Err(Unreadable),
        }
    }
}

// Reads until the buffer is full or the input ends.
pub fn read_script<R: Read>(input: &mut R, buffer: &mut [u8]) -> Result<usize, Unreadable>
    ensures script { ScriptWithin (length buffer.new) result }
    ensures bytes { IfOk result (λ size. Consumes (R.remaining input.old) (R.remaining input.new) (take size buffer.new)) }
    ensures end { IfOk result (λ size. size < length buffer.new → IsAtEnd (R.remaining input.new)) }
{
    let mut reading = Reading {
        done: 0,
        retries: RETRIES,
    };
    // Each call brings as many bytes as it likes, so no `for` counts the calls.
    while reading.done < buffer.len() {
        let call = input.read(&mut buffer[reading.done..]);
        match reading.after_call(call)? {
            ControlFlow::Continue(on) => reading = on,
            ControlFlow::Break(size) => return Ok(size),
        }
    }
    Ok(reading.done)
}
