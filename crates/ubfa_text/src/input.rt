//! Standard input, read to its end. Which bytes a read brings, no contract can say; that they lie in the buffer, this does.
ghost use Rattle.std.specs.Prelude.{length};
ghost use Rattle.ubfa_text.specs.Input.{InBuffer};

use std::io;
use std::io::Read;

// Why there is no message: more came than the buffer holds, or a read failed.
#[derive(Clone, Copy, Debug, PartialEq, Eq)]
pub(crate) enum InputError {
    TooLong,
    Failed,
}

impl From<io::Error> for InputError {
    fn from(_error: io::Error) -> InputError {
        InputError::Failed
    }
}

// Reads until the input ends, a read fails, or there is more than the buffer holds; how many bytes came.
pub(crate) fn read_message<R: Read>(input: &mut R, buffer: &mut [u8]) -> Result<usize, InputError>
    ensures { InBuffer result (length buffer.new) }
{
    let mut n = 0;
    // a read brings as many bytes as it likes, so that no `for` gives the places
    while n < buffer.len() {
        match input.read(&mut buffer[n..])? {
            0 => return Ok(n),
            more => n += more,
        }
    }
    // whether it ends there, tried with a byte more
    match input.read(&mut [0])? {
        0 => Ok(n),
        _ => Err(InputError::TooLong),
    }
}
