//! The register byte after `>`.
ghost use Rattle.std.specs.Prelude.{◌≡◌, drop};
ghost use Rattle.lexer.specs.Register.{register_from};

use format::{Offset, class};

// A register: its byte, with the place after it.
#[derive(Clone, Copy, Debug, PartialEq, Eq)]
pub struct Register {
    pub name: u8,
    pub end: Offset,
}

// Why none is named: the byte there names no register, or the slice ended.
#[derive(Clone, Copy, Debug, PartialEq, Eq)]
pub enum NoRegister {
    Stray(Offset),
    Ended,
}

// Reads the byte at `from`.
pub fn read_register(message: &[u8], from: Offset) -> Result<Register, NoRegister>
    ensures { result ≡ register_from from.0 (drop from.0 message.now) }
{
    let i = from.0;
    if message.len() <= i {
        return Err(NoRegister::Ended);
    }
    let name = message[i];
    if !class::is_register(name) {
        return Err(NoRegister::Stray(from));
    }
    let end = Offset(i + 1);
    Ok(Register { name, end })
}
