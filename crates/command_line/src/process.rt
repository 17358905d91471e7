//! The words of a process.

ghost use Rattle.std.specs.Prelude.{◌≡◌};
ghost use Rattle.std.specs.Io.{WritesAtMost};
ghost use Rattle.command_line.specs.Name.{GivesName};

use crate::asked::Refusal;
use std::env::FillError;
use std::io::ErrorKind;
use std::rt::Env;
use std::{env, io};

const NAME: &[u8] = b"heap_tool";

/// The words of the command line, of which the first is the program's name. Words are wrong where one
/// is no text; the first never is, whatever name the process was started by.
pub fn arguments<R: Env + Alloc>(rt: &R) -> Result<Vec<String<R::A>, R::A>, Refusal> {
    let args = match env::args(&Named { rt }) {
        Ok(args) => args,
        Err(error) if error.kind() == ErrorKind::OutOfMemory => return Err(Refusal::Memory),
        Err(_) => return Err(Refusal::Words),
    };
    match args.collect(rt.alloc()) {
        Ok(words) => Ok(words),
        Err(_) => Err(Refusal::Memory),
    }
}

// A runtime whose argument 0 is the program's name: the process may have been started by any other, or
// by one that is no text, and what it is asked doesn't depend on that.
#[derive(Drop)]
struct Named<'a, R> {
    rt: &'a R,
}

impl<R: Env> Env for Named<'_, R> {
    fn arg(&self, i: usize, buf: &mut [u8]) -> Result<usize, FillError>
        ensures bound { WritesAtMost result buf.new }
        ensures name { i ≡ 0 → GivesName result buf.new }
    {
        if i == 0 {
            return fill_name(buf);
        }
        self.rt.arg(i, buf)
    }

    fn var(&self, name: &str, buf: &mut [u8]) -> Result<usize, FillError> {
        self.rt.var(name, buf)
    }

    fn var_at(&self, i: usize, buf: &mut [u8]) -> Result<usize, FillError> {
        self.rt.var_at(i, buf)
    }

    fn current_dir(&self, buf: &mut [u8]) -> io::Result<usize> {
        self.rt.current_dir(buf)
    }

    fn set_current_dir(&self, path: &str) -> io::Result<()> {
        self.rt.set_current_dir(path)
    }
}

impl<R: Alloc> Alloc for Named<'_, R> {
    type A = R::A;

    fn alloc(&self) -> R::A {
        self.rt.alloc()
    }
}

// Copies the program's name to the start of the buffer.
fn fill_name(buf: &mut [u8]) -> Result<usize, FillError>
    ensures bound { WritesAtMost result buf.new }
    ensures name { GivesName result buf.new }
{
    if buf.len() < NAME.len() {
        return Err(FillError::TooLong);
    }
    buf[..NAME.len()].copy_from_slice(NAME);
    Ok(NAME.len())
}
