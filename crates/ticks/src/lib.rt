// Between marker passes: ticks in milliseconds, readings in millimetres. Lists are bytes: eight for a number, the lowest first.
#![tactic(auto)]

ghost use Rattle.std.specs.Prelude.{◌≡◌, ◌++◌, ◌+◌, ◌-◌, ◌*◌, ◌/◌, ◌<◌, ◌≤◌, length, drop};
ghost use Rattle.std.proofs.lemmas.List.Edits.{sets};
ghost use Rattle.numerals.specs.little_endian.LittleEndian.{eight_bytes};
ghost use Rattle.ticks.specs.Passes.{last_not_after, millis_between, millis_at};
ghost use Rattle.ticks.specs.judging.Refusing.{number_at, numbers_in};
ghost use Rattle.ticks.specs.Ticks.{passes_of, bytes_of, placed_ticks, TicksCall};
ghost use Rattle.ticks.specs.judging.GoodCalls.{GoodCall};
ghost use Rattle.ticks.specs.Asked.{Sought, FoundPass, NearPass, TickBetween};

use crate::judging::number_at;
use refusals::Refusal;

pub mod judging;
pub mod places;

// k + 2 passes that nothing is refused of: their ticks and milliseconds, or of passes along the pipe their milliseconds and places.
#[derive(Clone, Copy)]
struct JudgedPasses<'a> {
    ticks: &'a [u8],
    millis: &'a [u8],
    k: usize,
}

// a * c / d, whose product may pass 64 bits: a is split into halves of 20 bits.
// kept: halves by hand and no `u128`, which would leave wrong/halves_of_19_bits.edit and must-fail/product_in_64_bits.edit nothing to turn.
fn by_halves(a: u64, c: u64, d: u64) -> u64
    requires { (a < 1099511627776) × (c < 1099511627776) × (0 < d) × (d < 1099511627776) × (a ≤ d) }
    ensures { result ≡ a * c / d }
{
    let high = a / 1048576;
    let low = a % 1048576;
    let product = high * c;
    let quotient = product / d;
    let rest = product % d;
    quotient * 1048576 + (rest * 1048576 + low * c) / d
}

// The same; of two numbers below 2^32 the product fits.
fn along(a: u64, c: u64, d: u64) -> u64
    requires { (a < 1099511627776) × (c < 1099511627776) × (0 < d) × (d < 1099511627776) × (a ≤ d) }
    ensures { result ≡ a * c / d }
{
    if a < 0x1_0000_0000 && c < 0x1_0000_0000 {
        return a * c / d;
    }
    by_halves(a, c, d)
}

// The last of the passes `low` to `high` that is not after tick t, by halving: it is `from` or one of the `left` passes behind it.
// kept: tried and slower: by `partition_point` over chunks of eight bytes place_ticks took 72 instructions a rising tick for 60 by halving, 175 for 143 by
// chance, and place_readings 71 for 66 (bench/run -i). A rising tick is to take 60.
fn last_not_after(passes: &[u8], low: usize, high: usize, t: u64) -> usize
    requires { Sought passes.now low high t }
    ensures { FoundPass (number_at passes.now) low high t result }
{
    let mut from = low;
    let mut left = high - low;
    while 0 < left {
        let middle = from + (left + 1) / 2;
        if number_at(passes, middle) <= t {
            from = middle;
        }
        left = left / 2;
    }
    from
}

// The last of the passes 0 to k that is not after tick t. Rising ticks find it near the last one's, j; any other is sought by halving.
fn neighbour(passes: &JudgedPasses, j: usize, t: u64) -> usize
    requires { NearPass passes.now.ticks.now passes.now.k j t }
    ensures { result ≡ last_not_after (number_at passes.now.ticks.now) t passes.now.k }
{
    if t < number_at(passes.ticks, j) {
        return last_not_after(passes.ticks, 0, j, t);
    }
    if passes.k - j < 2 {
        return last_not_after(passes.ticks, j, passes.k, t);
    }
    if t < number_at(passes.ticks, j + 1) {
        return j;
    }
    if t < number_at(passes.ticks, j + 2) {
        return j + 1;
    }
    last_not_after(passes.ticks, j + 2, passes.k, t)
}

// The millisecond of tick t on the line between the passes j and j + 1.
fn millis_between(passes: &JudgedPasses, j: usize, t: u64) -> u64
    requires { TickBetween passes.now.ticks.now passes.now.millis.now j t }
    ensures { result ≡ millis_between (passes_of passes.now.ticks.now passes.now.millis.now) j t }
{
    let t0 = number_at(passes.ticks, j);
    let t1 = number_at(passes.ticks, j + 1);
    let m0 = number_at(passes.millis, j);
    let m1 = number_at(passes.millis, j + 1);
    m0 + along(t - t0, m1 - m0, t1 - t0)
}

// The eight bytes of a number at a place of the lent list.
fn put_number(out: &mut [u8], at: usize, n: u64)
    requires { at + 8 ≤ length out.old }
    ensures { out.new ≡ sets out.old at (eight_bytes n) }
{
    let end = at + 8;
    numerals::little_endian::put_u64(&mut out[at..end], n);
}

// Places all ticks.
fn place_all(passes: &JudgedPasses, ticks: &[u8], out: &mut [u8])
    requires { (GoodCall passes.now.ticks.now passes.now.millis.now passes.now.k (numbers_in ticks.now) ticks.now)
        × (8 * numbers_in ticks.now ≤ length out.old) }
    ensures { out.new ≡ bytes_of (λ i. millis_at (passes_of passes.now.ticks.now passes.now.millis.now) (number_at ticks.now i)) (numbers_in ticks.now)
        ++ drop (8 * numbers_in ticks.now) out.old }
{
    let n = ticks.len() / 8;
    let mut j = 0;
    for i in 0..n {
        let t = number_at(ticks, i);
        j = neighbour(passes, j, t);
        let m = millis_between(passes, j, t);
        put_number(out, 8 * i, m);
    }
}

// kept: the lists stay bytes, and stand beside one another, as C hands them over (ct_place_ticks).
// Gives each tick its TAI millisecond, rounded down. Refusals in order: 14 a length that is no multiple of 8; 11 fewer places than ticks; 23 unequal, too few
// or too many passes or too large a number in them; 24 passes not strictly rising in both; 25 a tick outside them.
pub fn place_ticks(
    passes: &[u8],
    millis: &[u8],
    ticks: &[u8],
    out: &mut [u8],
) -> Result<usize, Refusal>
    ensures { TicksCall (placed_ticks passes.now millis.now ticks.now (length out.old)) out.old result
        out.new }
{
    crate::judging::judge(passes, millis, ticks, out.len())?;
    let judged = JudgedPasses {
        ticks: passes,
        millis,
        k: passes.len() / 8 - 2,
    };
    place_all(&judged, ticks, out);
    Ok(ticks.len())
}
