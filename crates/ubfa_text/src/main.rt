//! The program of 01: reads a message on standard input, and writes its plain text or its refusal, and a newline, on standard output.
#![tactic(auto)]

use crate::input::InputError;
use format::Offset;
use format::refusal::{Refusal, Refused};
use std::io;

mod input;
mod respond;

// What the program lends itself for the message and for its plain text.
const MESSAGE_BYTES: usize = 16384;

const OUTPUT_BYTES: usize = 16384;

// The line of a refusal. Each part is written by itself: an output that takes no more has the parts before.
fn print_refused(rt: &impl Print, refused: Refused) -> io::Result<()> {
    print!(rt; "refused ")?;
    print!(rt; "{}", u32::from(refused.refusal))?;
    print!(rt; " at ")?;
    print!(rt; "{}", refused.place.0)?;
    println!(rt)
}

// The plain text of a message, or its refusal. No `Display`: the text is bytes, and need be no UTF-8.
fn print_answer(rt: &impl Print, message: &[u8]) -> io::Result<()> {
    let mut output = [0u8; OUTPUT_BYTES];
    match respond::respond(message, &mut output) {
        Ok(n) => {
            rt.write_all(&output[..n])?;
            println!(rt)
        }
        Err(refused) => print_refused(rt, refused),
    }
}

fn complain(rt: &impl Eprint, what: &str) {
    let _ = eprintln!(rt; "ubfa: {what}");
}

// The line is written whole, or it is said on standard error that it was not.
fn finish(rt: &impl Eprint, written: io::Result<()>) {
    if written.is_err() {
        complain(rt, "cannot write standard output");
    }
}

fn main(rt: HostRuntime) {
    let mut message = [0u8; MESSAGE_BYTES];
    match input::read_message(&mut rt.stdin(), &mut message) {
        Ok(n) => finish(&rt, print_answer(&rt, &message[..n])),
        Err(InputError::TooLong) => {
            let refused = Refused {
                refusal: Refusal::OverBound,
                place: Offset(0),
            };
            finish(&rt, print_refused(&rt, refused));
        }
        Err(InputError::Failed) => complain(&rt, "cannot read standard input"),
    }
}
