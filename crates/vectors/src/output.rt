// Output by way of lent room, which is written when what comes next has no room there.
ghost use Rattle.std.specs.Prelude.{◌≤◌, length};

use std::io;
use std::io::Write;

// Where the output goes, and lent room with what of it is not written yet. Where a write fails, the program ends.
#[derive(Drop)]
pub(crate) struct Page<'a, P: Print> {
    out: &'a P,
    room: &'a mut [u8],
    size: usize,
    ghost fits: { size ≤ length room.now },
}

impl<'a, P: Print> Page<'a, P> {
    pub(crate) fn new(out: &'a P, room: &'a mut [u8]) -> Page<'a, P> {
        Page { out, room, size: 0 }
    }

    // Puts bytes if there is room for all of them, and answers whether there is.
    #[inline(always)]
    fn put(&mut self, bytes: &[u8]) -> bool {
        let room = &mut *self.room;
        let free = &mut room[self.size..];
        if free.len() < bytes.len() {
            return false;
        }
        free[..bytes.len()].copy_from_slice(bytes);
        self.size += bytes.len();
        true
    }

    // Writes what has been put, and then puts bytes. What is longer than the whole room is written as it is.
    #[inline(never)]
    fn put_after_flush(&mut self, bytes: &[u8]) -> io::Result<()> {
        self.flush()?;
        if self.put(bytes) {
            return Ok(());
        }
        self.out.write_all(bytes)
    }
}

impl<P: Print> Write for Page<'_, P> {
    fn write(&mut self, bytes: &[u8]) -> io::Result<usize> {
        self.write_all(bytes)?;
        Ok(bytes.len())
    }

    fn flush(&mut self) -> io::Result<()> {
        self.out.write_all(&self.room[..self.size])?;
        self.size = 0;
        Ok(())
    }

    #[inline(always)]
    fn write_all(&mut self, bytes: &[u8]) -> io::Result<()> {
        if self.put(bytes) {
            return Ok(());
        }
        self.put_after_flush(bytes)
    }
}
