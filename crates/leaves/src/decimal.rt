//! A number in decimal, without a sign.
ghost use Rattle.std.specs.Prelude.{◌≡◌, [], ◌+◌, ◌≤◌, ◌<◌, length, set};
ghost use Rattle.std.proofs.lemmas.List.Edits.{sets};
ghost use Rattle.format.specs.Text.{natural_on};
ghost use Rattle.leaves.specs.Outputs.{HasRoom, Wrote};

use crate::output::Output;
use format::byte;

// How many digits a number has. They are counted two at a time.
pub fn digit_count(n: u64) -> usize
    ensures value { result ≡ length (natural_on n []) }
    ensures upper_bound { result ≤ 20 }
{
    // a loop over what is left of the number, and over no range or slice
    let mut rest = n;
    let mut count = 1;
    while 100 <= rest {
        rest = rest / 100;
        count += 2;
    }
    if rest < 10 {
        return count;
    }
    count + 1
}

// Stores a digit's byte at `at`, and answers the place after it.
fn put_digit(output: &mut [u8], at: usize, digit: u64) -> usize
    requires { (digit < 10) × (at < length output.old) }
    ensures output_after { output.new ≡ set output.old at (48 + digit) }
    ensures value { result ≡ at + 1 }
{
    output[at] = byte::ZERO + (digit as u8);
    at + 1
}

// Stores a number's digits from `at` on, and answers the place after them: first the digits of its tenth, then its last digit.
// The two functions are alike and call each other, so that the compiler makes one call for two digits: one alone takes 7 % more instructions to write integers
// of nine digits. They are at most 20 deep.
#[cycle(put_natural_put_tenth)]
fn put_natural(output: &mut [u8], at: usize, n: u64) -> usize
    requires { at + length (natural_on n []) ≤ length output.old }
    ensures output_after { output.new ≡ sets output.old at (natural_on n []) }
    ensures value { result ≡ at + length (natural_on n []) }
{
    if n < 10 {
        return put_digit(output, at, n);
    }
    let last = put_tenth(output, at, n / 10);
    put_digit(output, last, n % 10)
}

#[cycle(put_natural_put_tenth)]
fn put_tenth(output: &mut [u8], at: usize, n: u64) -> usize
    requires { at + length (natural_on n []) ≤ length output.old }
    ensures output_after { output.new ≡ sets output.old at (natural_on n []) }
    ensures value { result ≡ at + length (natural_on n []) }
{
    if n < 10 {
        return put_digit(output, at, n);
    }
    let last = put_natural(output, at, n / 10);
    put_digit(output, last, n % 10)
}

// Stores a number's digits. The functions above keep the place beside the slice, so that it stays in a register from call to call.
pub fn put_decimal(output: &mut Output, n: u64)
    requires { HasRoom output.old (natural_on n []) }
    ensures { Wrote output.old (natural_on n []) output.new }
{
    output.at = put_natural(output.bytes, output.at, n);
}
