//! A span of the message, copied block by block. A block is loaded whole before it is stored, so that the compiler moves it at once without asking whether
//! message and output overlap.
ghost use Rattle.std.specs.Prelude.{◌≡◌, ◌+◌, ◌≤◌, length};
ghost use Rattle.std.proofs.lemmas.List.Edits.{sets};
ghost use Rattle.format.specs.Rows.{span_of};
ghost use Rattle.leaves.specs.Outputs.{HasRoom, Wrote};

use crate::output::Output;

// Bytes of a block.
const BLOCK: usize = 8;

// The block of a span from `from` on.
fn load_block(bytes: &[u8], from: usize) -> [u8; 8]
    requires { from + 8 ≤ length bytes.now }
    ensures { result ≡ span_of bytes.now from 8 }
{
    // here and in `store_block` no `copy_from_slice`: with it a text of strings of 400 bytes takes 25 % more instructions to write
    let mut block = [0; 8];
    for i in 0..BLOCK {
        block[i] = bytes[from + i];
    }
    block
}

// Stores a block from `at` on. Here and below slice and place stand apart: blocks go to places that are no output's next.
fn store_block(output: &mut [u8], at: usize, block: [u8; 8])
    requires { at + 8 ≤ length output.old }
    ensures { output.new ≡ sets output.old at block }
{
    for i in 0..BLOCK {
        output[at + i] = block[i];
    }
}

// Stores a span by blocks. The last block ends where it ends, over bytes that may be stored already.
fn put_by_blocks(bytes: &[u8], output: &mut [u8], at: usize)
    requires { (8 ≤ length bytes.now) × (at + length bytes.now ≤ length output.old) }
    ensures { output.new ≡ sets output.old at bytes.now }
{
    let last = bytes.len() - BLOCK;
    for i in (0..last).step_by(BLOCK) {
        store_block(output, at + i, load_block(bytes, i));
    }
    store_block(output, at + last, load_block(bytes, last));
}

// Stores a span byte by byte.
fn put_by_one(bytes: &[u8], output: &mut [u8], at: usize)
    requires { at + length bytes.now ≤ length output.old }
    ensures { output.new ≡ sets output.old at bytes.now }
{
    for i in 0..bytes.len() {
        output[at + i] = bytes[i];
    }
}

// Stores a span.
pub fn put_span(bytes: &[u8], output: &mut Output)
    requires { HasRoom output.old bytes.now }
    ensures { Wrote output.old bytes.now output.new }
{
    if BLOCK <= bytes.len() {
        put_by_blocks(bytes, output.bytes, output.at);
    } else {
        put_by_one(bytes, output.bytes, output.at);
    }
    output.at += bytes.len();
}
