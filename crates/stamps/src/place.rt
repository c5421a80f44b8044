// Decimal numbers into a lent slice from an index on. Each function answers the index after what it wrote.
// kept: three functions for numbers of two, three and four digits, since each line has such a number, and they take 5 ns where one that calls itself takes 10
// and `place_decimal` of reasons, which writes a number of any length, 13 (in Rust, optimised, over 0 to 3,999).
ghost use Rattle.std.specs.Prelude.{◌+◌, ◌≤◌, ◌<◌, [], ◌∷◌, length};
ghost use Rattle.numerals.specs.digits.Decimal.{last, digits_in};
ghost use Rattle.numerals.specs.digits.Placed.{Placed};
ghost use Rattle.stamps.specs.Listing.{numeral};

// The last digit of a number.
fn digit(n: u32, dst: &mut [u8], at: usize) -> usize
    requires { at < length dst.old }
    ensures { Placed dst.old at (last n ∷ []) result dst.new }
{
    dst[at] = 48 + (n % 10) as u8;
    at + 1
}

// A number below 100.
fn two_digits(n: u32, dst: &mut [u8], at: usize) -> usize
    requires { at + 2 ≤ length dst.old }
    ensures placed { Placed dst.old at (digits_in 2 n) result dst.new }
    ensures upper_bound { result ≤ at + 2 }
{
    if n < 10 {
        return digit(n, dst, at);
    }
    let next = digit(n / 10, dst, at);
    digit(n, dst, next)
}

// A number below 1,000.
fn three_digits(n: u32, dst: &mut [u8], at: usize) -> usize
    requires { at + 3 ≤ length dst.old }
    ensures placed { Placed dst.old at (digits_in 3 n) result dst.new }
    ensures upper_bound { result ≤ at + 3 }
{
    if n < 10 {
        return digit(n, dst, at);
    }
    let next = two_digits(n / 10, dst, at);
    digit(n, dst, next)
}

// A number below 10,000.
pub(crate) fn number(n: u32, dst: &mut [u8], at: usize) -> usize
    requires { at + 4 ≤ length dst.old }
    ensures placed { Placed dst.old at (numeral n) result dst.new }
    ensures upper_bound { result ≤ at + 4 }
{
    if n < 10 {
        return digit(n, dst, at);
    }
    let next = three_digits(n / 10, dst, at);
    digit(n, dst, next)
}
