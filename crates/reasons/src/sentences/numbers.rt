// Decimal and hexadecimal numbers into a slice from an index on. Each function answers the index after what it wrote.
ghost use Rattle.std.specs.Prelude.{◌+◌, ◌≤◌, ◌<◌, ◌≡◌, length, nat_abs};
ghost use Rattle.numerals.specs.digits.Decimal.{digits_of};
ghost use Rattle.numerals.specs.digits.Hexadecimal.{hex_digit, hex16};
ghost use Rattle.numerals.specs.digits.Placed.{Placed, Placing};
ghost use Rattle.reasons.specs.sentences.Render.{signed_digits};

use numerals::place::place_bytes;

// A number in decimal, with no zeros in front: its digits from the last on, two at a time, in a place that is long enough for all. Where they do not all fit
// behind the index, nothing is written, and the answer is the index itself.
pub fn place_decimal(n: u64, dst: &mut [u8], at: usize) -> usize
    ensures { Placing dst.old at (digits_of n) result dst.new × (length (digits_of n) ≤ 20) }
{
    let mut all = [0u8; 20];
    let mut rest = n;
    let mut i = 20;
    // kept: no plainer: how many pairs of digits a number has is not known before, and a `for` would have to count them first.
    while rest >= 100 {
        let pair = (rest % 100) as u8;
        i -= 1;
        all[i] = 48 + pair % 10;
        i -= 1;
        all[i] = 48 + pair / 10;
        rest /= 100;
    }
    i -= 1;
    all[i] = 48 + (rest % 10) as u8;
    if rest >= 10 {
        i -= 1;
        all[i] = 48 + (rest / 10 % 10) as u8;
        return place_bytes(&all[i..], dst, at);
    }
    place_bytes(&all[i..], dst, at)
}

// A whole number, with a sign where it is below 0.
pub(crate) fn signed(n: i32, dst: &mut [u8], at: usize) -> usize
    requires { at + 21 ≤ length dst.old }
    ensures placed { Placed dst.old at (signed_digits n) result dst.new }
    ensures upper_bound { result ≤ at + 21 }
{
    let digits = n.unsigned_abs() as u64;
    if n < 0 {
        let next = place_bytes(b"-", dst, at);
        return place_decimal(digits, dst, next);
    }
    place_decimal(digits, dst, at)
}

const HEXADECIMAL: [u8; 16] = *b"0123456789abcdef";

fn hex_digit(d: u64) -> u8
    requires { d < 16 }
    ensures { result ≡ hex_digit d }
{
    HEXADECIMAL[d as usize]
}

// The 16 hexadecimal digits of a number.
#[tactic(auto, unfolding(numerals::specs::digits::Hexadecimal::hex16, numerals::specs::digits::Hexadecimal::hex_digits))]
fn sixteen(n: u64) -> [u8; 16]
    ensures { result ≡ hex16 n }
{
    let b = n / 16;
    let c = b / 16;
    let d = c / 16;
    let e = d / 16;
    let f = e / 16;
    let g = f / 16;
    let h = g / 16;
    let i = h / 16;
    let j = i / 16;
    let k = j / 16;
    let l = k / 16;
    let m = l / 16;
    let o = m / 16;
    let p = o / 16;
    let q = p / 16;
    [
        hex_digit(q % 16),
        hex_digit(p % 16),
        hex_digit(o % 16),
        hex_digit(m % 16),
        hex_digit(l % 16),
        hex_digit(k % 16),
        hex_digit(j % 16),
        hex_digit(i % 16),
        hex_digit(h % 16),
        hex_digit(g % 16),
        hex_digit(f % 16),
        hex_digit(e % 16),
        hex_digit(d % 16),
        hex_digit(c % 16),
        hex_digit(b % 16),
        hex_digit(n % 16),
    ]
}

pub(crate) fn hexadecimal(n: u64, dst: &mut [u8], at: usize) -> usize
    requires { at + 16 ≤ length dst.old }
    ensures placed { Placed dst.old at (hex16 n) result dst.new }
    ensures upper_bound { result ≤ at + 16 }
{
    let all = sixteen(n);
    place_bytes(&all, dst, at)
}
