// The first lines and the last: how many stamps each run has, how many of them are not finite, refused and left out.
// kept: lists of parts and numbers as ct_line_listing_part lends them. It lends sizes and ends in one slice of three records, which capi takes apart by
// `run_at`; here they stand one by one, as `head_text` of the contracts names them.
ghost use Rattle.std.specs.Prelude.{◌≡◌, ◌+◌, ◌-◌, ◌<◌, ◌≤◌, length, if◌then◌else◌, ◌==◌, nat_eq};
ghost use Rattle.floats.specs.ExponentField.{exponent_field};
ghost use Rattle.leap_table.specs.rows.Announced.{least};
ghost use Rattle.utc.specs.text.Answer.{TextPut};
ghost use Rattle.line_listing.specs.lines.StampLine.{stamps};
ghost use Rattle.line_listing.specs.head.Counts.{not_finite, kind_at, kinds_in, first_end, second_end};
ghost use Rattle.line_listing.specs.head.Head.{counted, block_end, run_line, run_if_named, one_if_named, head_text, end_text};
ghost use Rattle.line_listing.specs.head.Asked.{PlacedIn};

use crate::lines::number_at;
use numerals::little_endian::nth_u64;
use numerals::place::place_bytes;
use reasons::sentences::numbers::place_decimal;
use refusals::Refusal;

// Whether a run is named, and the block that ended it: how many came before it, and the number of its refusal, 0 where none did.
// kept: a flag and a number, and no `Option`: C lends the three in a record (`run_at` in capi), and the theorems of the head speak of the fields.
#[derive(Clone, Copy)]
pub struct RunEnd {
    pub named: bool,
    pub block: u64,
    pub refused: u32,
}

// The number of a stamp that is left out of the line (ct_lines_in_order).
pub(crate) const LEFT_OUT: u8 = Refusal::OutOfOrder as u8;

// Whether the exponent field of a pattern is all ones.
// kept: by the pattern, beside runs' `is_number`: `kind_at` goes by the definition `exponent_field`, and runs' by `finite`.
fn all_ones(bits: u64) -> bool
    ensures { result ≡ (exponent_field bits == 2047) }
{
    bits / 0x10_0000_0000_0000 % 2048 == 2047
}

// The kind of a stamp: 0 ordered, 1 not finite, 2 refused, 3 left out.
// kept: a number and no enum, since the theorems `NotFiniteCounted` and `Right` speak of the numbers.
#[tactic(auto, unfolding(crate::specs::head::Counts::kind_at, crate::specs::head::Counts::not_finite))]
fn kind_at(jd1s: &[u8], jd2s: &[u8], numbers: &[u8], place: usize) -> u8
    ensures { result ≡ kind_at jd1s.now jd2s.now numbers.now place }
{
    let number = number_at(numbers, place);
    if number == 0 {
        return 0;
    }
    if number == LEFT_OUT {
        return 3;
    }
    if all_ones(nth_u64(jd1s, place)) || all_ones(nth_u64(jd2s, place)) {
        return 1;
    }
    2
}

// How many of the n stamps from `from` on are of a kind.
pub(crate) fn count_of(
    jd1s: &[u8],
    jd2s: &[u8],
    numbers: &[u8],
    kind: u8,
    from: usize,
    n: usize,
) -> usize
    requires { from + n < 18446744073709551616 }
    ensures { (result ≡ kinds_in jd1s.now jd2s.now numbers.now kind from n) × (result ≤ n) }
{
    let mut count = 0;
    for i in 0..n {
        if kind_at(jd1s, jd2s, numbers, from + i) == kind {
            count += 1;
        }
    }
    count
}

// Words and a number.
pub(crate) fn place_count(words: &[u8], n: u64, dst: &mut [u8], at: usize) -> usize
    requires { at + length words.now + 20 ≤ length dst.old }
    ensures { PlacedIn dst.old at (counted words.now n) (length words.now + 20) result dst.new }
{
    let next = place_bytes(words, dst, at);
    place_decimal(n, dst, next)
}

// The block that ended a run.
fn place_end(end: RunEnd, dst: &mut [u8], at: usize) -> usize
    requires { at + 56 ≤ length dst.old }
    ensures { PlacedIn dst.old at (block_end end) 56 result dst.new }
{
    if end.refused == 0 {
        return at;
    }
    let next = place_count(b" block ", end.block, dst, at);
    place_count(b" refused ", end.refused as u64, dst, next)
}

// The line of a run of n stamps from `from` on.
fn place_run(
    name: &[u8],
    end: RunEnd,
    jd1s: &[u8],
    jd2s: &[u8],
    numbers: &[u8],
    from: usize,
    n: usize,
    dst: &mut [u8],
    at: usize,
) -> usize
    requires { (length name.now ≡ 4) × (from + n < 18446744073709551616) × (at + 172 ≤ length dst.old) }
    ensures { PlacedIn dst.old at
        (run_line name.now end jd1s.now jd2s.now numbers.now from n) 172 result dst.new }
{
    let a = place_count(name, n as u64, dst, at);
    let b = place_count(
        b" not finite ",
        count_of(jd1s, jd2s, numbers, 1, from, n) as u64,
        dst,
        a,
    );
    let c = place_count(
        b" refused ",
        count_of(jd1s, jd2s, numbers, 2, from, n) as u64,
        dst,
        b,
    );
    let d = place_count(
        b" left out ",
        count_of(jd1s, jd2s, numbers, 3, from, n) as u64,
        dst,
        c,
    );
    let e = place_end(end, dst, d);
    place_bytes(b"\n", dst, e)
}

// The same where the run is named.
fn place_if_named(
    name: &[u8],
    end: RunEnd,
    jd1s: &[u8],
    jd2s: &[u8],
    numbers: &[u8],
    from: usize,
    n: usize,
    dst: &mut [u8],
    at: usize,
) -> usize
    requires { (length name.now ≡ 4) × (from + n < 18446744073709551616) × (at + 172 ≤ length dst.old) }
    ensures { PlacedIn dst.old at
        (run_if_named name.now end jd1s.now jd2s.now numbers.now from n) 172 result dst.new }
{
    if end.named {
        return place_run(name, end, jd1s, jd2s, numbers, from, n, dst, at);
    }
    at
}

// kept: a function and no `min`, since its callers go by the two bounds of this contract too.
pub(crate) fn smaller(a: usize, b: usize) -> usize
    ensures { (result ≡ least a b) × (result ≤ a) × (result ≤ b) }
{
    if a <= b { a } else { b }
}

// The first lines, at the start of a slice that surely holds them.
pub(crate) fn compose(
    jd1s: &[u8],
    jd2s: &[u8],
    numbers: &[u8],
    first: usize,
    second: usize,
    gps: RunEnd,
    tai: RunEnd,
    utc: RunEnd,
    dst: &mut [u8],
) -> usize
    requires { 550 ≤ length dst.old }
    ensures { PlacedIn dst.old 0
        (head_text gps tai utc (stamps jd1s.now jd2s.now numbers.now first second)) 550 result dst.new }
{
    let n = numbers.len();
    let end1 = smaller(first, n);
    let end2 = end1 + smaller(second, n - end1);
    let named = u64::from(gps.named) + u64::from(tai.named) + u64::from(utc.named);
    let a = place_count(b"line up ", named, dst, 0);
    let b = place_bytes(b" runs\n", dst, a);
    let c = place_if_named(b"gps ", gps, jd1s, jd2s, numbers, 0, end1, dst, b);
    let d = place_if_named(b"tai ", tai, jd1s, jd2s, numbers, end1, end2 - end1, dst, c);
    place_if_named(b"utc ", utc, jd1s, jd2s, numbers, end2, n - end2, dst, d)
}

// kept: no plainer, beside `put_end`: one function for both would take the size of the array, and a closure that writes the text, with its contract.
// The first lines of the listing at the start of the buffer: how many runs are named, and of each of them a line. Where they do not fit, 11 and nothing is
// written; 550 bytes are enough.
pub fn put_head(
    jd1s: &[u8],
    jd2s: &[u8],
    numbers: &[u8],
    first: usize,
    second: usize,
    gps: RunEnd,
    tai: RunEnd,
    utc: RunEnd,
    out: &mut [u8],
) -> Result<usize, Refusal>
    ensures { TextPut (head_text gps tai utc (stamps jd1s.now jd2s.now numbers.now first second)) out.old result
        out.new }
{
    let mut all = [0u8; 550];
    let n = compose(jd1s, jd2s, numbers, first, second, gps, tai, utc, &mut all);
    if out.len() < n {
        return Err(Refusal::NoRoom);
    }
    Ok(numerals::place::copy(&all[..n], out))
}

pub(crate) fn compose_end(ordered: u64, textless: u64, dst: &mut [u8]) -> usize
    requires { 64 ≤ length dst.old }
    ensures { PlacedIn dst.old 0 (end_text ordered textless) 64 result dst.new }
{
    let a = place_count(b"lined up ", ordered, dst, 0);
    let b = place_count(b" without text ", textless, dst, a);
    place_bytes(b"\n", dst, b)
}

// The last line: how many stamps are lined up, and how many of them have no text. Where it does not fit, 11 and nothing is written; 64 bytes are enough.
pub fn put_end(ordered: u64, textless: u64, out: &mut [u8]) -> Result<usize, Refusal>
    ensures { TextPut (end_text ordered textless) out.old result out.new }
{
    let mut all = [0u8; 64];
    let n = compose_end(ordered, textless, &mut all);
    if out.len() < n {
        return Err(Refusal::NoRoom);
    }
    Ok(numerals::place::copy(&all[..n], out))
}
