// How a program prints.
ghost use Rattle.std.specs.Prelude.{◌≤◌, length, IfOk};

use std::{fmt, io};

// Prints as what it is made of, and passes over a write that fails. Behind a pipe that nobody reads any more none can go
// through: that alone it hands on, so that a program doesn't play an endless input to nobody.
#[derive_where(Clone, Copy)]
pub struct Passing<'a, P>(pub &'a P);

fn pass_over(written: io::Result<()>) -> io::Result<()> {
    match written {
        Err(e) if e.kind() == io::ErrorKind::BrokenPipe => Err(e),
        _ => Ok(()),
    }
}

impl<P: Print> Print for Passing<'_, P> {
    fn print<D: fmt::Display + Drop>(&self, value: D) -> io::Result<()> {
        pass_over(self.0.print(value))
    }

    fn println<D: fmt::Display + Drop>(&self, value: D) -> io::Result<()> {
        pass_over(self.0.println(value))
    }

    fn write_all(&self, bytes: &[u8]) -> io::Result<()> {
        pass_over(self.0.write_all(bytes))
    }

    // Where it fails, all bytes are passed over.
    fn write_some(&self, bytes: &[u8]) -> io::Result<usize>
        ensures bound { IfOk result (λ n. n ≤ length bytes.now) }
    {
        match self.0.write_some(bytes) {
            Ok(n) => Ok(n),
            Err(e) => pass_over(Err(e)).map(|()| bytes.len()),
        }
    }
}
