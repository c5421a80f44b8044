// A run of which each stamp has an offset in seconds of its own.
ghost use Rattle.std.specs.Prelude.{◌≡◌, ◌+◌, ◌*◌, ◌≤◌, cond, length};
ghost use Rattle.std.specs.Float.Ieee.{neg};
ghost use Rattle.runs.specs.by_formula.Asked.{HasPlace, Roomy, StampPut, RunPut, number_of_not_finite_at, offset_stamp};

use super::changes::change_stamp;
use super::pairs::Kind;
use super::{PART_NOT_FINITE, is_number, one_if_refused, pattern_at};
use refusals::Refusal;

const OFFSET_NOT_FINITE: u8 = Refusal::OffsetNotFinite as u8;

// The number of a stamp whose offset is not finite: 9 where a part is not, and else 10.
fn not_finite_number(jd1s: &[u8], jd2s: &[u8], i: usize) -> u8
    requires { HasPlace i jd1s.now jd2s.now }
    ensures { result ≡ number_of_not_finite_at jd1s.now jd2s.now i }
{
    if !is_number(pattern_at(jd1s, i)) {
        return PART_NOT_FINITE;
    }
    if !is_number(pattern_at(jd2s, i)) {
        return PART_NOT_FINITE;
    }
    OFFSET_NOT_FINITE
}

// kept: no plainer: a truth value and no closure, since this one test stands for it.
fn turned(earlier: bool, days: f64) -> f64
    ensures { result ≡ cond earlier (neg days) days }
{
    if earlier { -days } else { days }
}

// Moves the stamp at place i by its offset, and gives its number.
fn offset_stamp(
    earlier: bool,
    jd1s: &[u8],
    jd2s: &[u8],
    offsets: &[u8],
    i: usize,
    out1: &mut [u8],
    out2: &mut [u8],
) -> u8
    requires { (HasPlace i jd1s.now jd2s.now) × ((8 * i + 8 ≤ length offsets.now) × (HasPlace i out1.old out2.old)) }
    ensures { StampPut (offset_stamp earlier jd1s.now jd2s.now offsets.now i) i out1.old out2.old
        result out1.new out2.new }
{
    let c = pattern_at(offsets, i);
    if !is_number(c) {
        return not_finite_number(jd1s, jd2s, i);
    }
    let days = f64::from_bits(c) / constants::SECONDS_PER_DAY_F64;
    change_stamp(
        Kind::Shift,
        turned(earlier, days),
        jd1s,
        jd2s,
        i,
        out1,
        out2,
    )
}

// kept: a loop beside those of `changes` and lib.rt, alike but for the call: one over a closure would ask of it, in clauses, what it writes at each place.
// Moves n stamps by their offsets, and says how many are refused.
pub(crate) fn offset_all(
    earlier: bool,
    jd1s: &[u8],
    jd2s: &[u8],
    offsets: &[u8],
    n: usize,
    out1: &mut [u8],
    out2: &mut [u8],
    numbers: &mut [u8],
) -> usize
    requires { (Roomy n jd1s.now jd2s.now out1.old out2.old numbers.old) × (8 * n ≤ length offsets.now) }
    ensures { RunPut (offset_stamp earlier jd1s.now jd2s.now offsets.now) n out1.old out2.old
        numbers.old result out1.new out2.new numbers.new }
{
    let mut refused = 0;
    for i in 0..n {
        let number = offset_stamp(earlier, jd1s, jd2s, offsets, i, out1, out2);
        numbers[i] = number;
        refused += one_if_refused(number);
    }
    refused
}
