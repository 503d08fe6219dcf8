//! What the program makes of a message: decoded, and written as plain text, with the tables that 01 lists.
ghost use Rattle.std.specs.Prelude.{◌≡◌, length};
ghost use Rattle.demands.specs.Demand2.{machine_says};
ghost use Rattle.ubfa_text.specs.Response.{program_tables, line, line_says, InOutput};

use format::refusal::{Refusal, Refused};
use format::{Offset, ROW_WORDS, bound};
use table::Table;

// Rows, which are as many as the words of scratch, and words of stack and marks.
const ROWS: usize = 1024;

const STACK: usize = 256;

const MARKS: usize = 64;

// The refusals of a writing have the place 0.
fn unwritten(refusal: Refusal) -> Refused
    ensures { result ≡ record { refusal = refusal; place = record { 0 = 0 } } }
{
    Refused {
        refusal,
        place: Offset(0),
    }
}

// Decodes a message, and writes its plain text into the output; how many bytes that has.
pub(crate) fn respond(message: &[u8], output: &mut [u8]) -> Result<usize, Refused>
    ensures output_after { line result output.new ≡ line_says (machine_says message.now program_tables) (length output.old) }
    ensures in_output { InOutput result output.new }
{
    let mut rows = [0u32; ROWS * ROW_WORDS];
    let mut stack = [0u32; STACK];
    let mut marks = [0u32; MARKS];
    let mut registers = [0u32; bound::REGISTER_WORDS];
    let mut scratch = [0u32; ROWS];
    let read = decoder::decode(message, &mut rows, &mut stack, &mut marks, &mut registers)?;
    let table = Table {
        message,
        rows: &rows,
        used: read.used,
        root: read.root,
    };
    text::write(table, &mut scratch, output).map_err(unwritten)
}
