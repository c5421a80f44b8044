// A run whose stamps are all changed by one formula. A stamp is judged by its patterns, and the part that stays is handed on as its pattern.
ghost use Rattle.std.specs.Prelude.{◌≡◌, ◌%◌, ltb};
ghost use Rattle.runs.specs.by_formula.Asked.{HasPlace, Roomy, StampPut, RunPut, kind_number, change_of, changed_stamp};

use super::pairs::Kind;
use super::{PART_NOT_FINITE, is_number, one_if_refused, pattern_at, put_pattern};
use scales::tcb_tdb::{tcb_to_tdb_part, tdb_to_tcb_part};
use scales::tt_tcg::{tcg_to_tt_part, tt_to_tcg_part};

// Whether of two patterns the first is the larger without the sign's bit. Of two finite numbers it is then the larger in size; and where the larger is a finite
// number's the other is, too.
fn is_larger(a: u64, b: u64) -> bool
    ensures { result ≡ ltb (b % 0x8000_0000_0000_0000) (a % 0x8000_0000_0000_0000) }
{
    b % 0x8000_0000_0000_0000 < a % 0x8000_0000_0000_0000
}

// What the smaller part becomes.
#[tactic(auto, using(crate::proofs::by_formula::KindLaws::kinds), unfolding(crate::specs::by_formula::Asked::change_of, julian::specs::shifts::Shifts::plus))]
fn changed_part(kind: Kind, days: f64, larger: f64, smaller: f64) -> f64
    ensures { result ≡ change_of (kind_number kind) days larger smaller }
{
    match kind {
        Kind::Shift => smaller + days,
        Kind::TtToTcg => tt_to_tcg_part(larger, smaller),
        Kind::TcgToTt => tcg_to_tt_part(larger, smaller),
        Kind::TcbToTdb => tcb_to_tdb_part(larger, smaller),
        _ => tdb_to_tcb_part(larger, smaller),
    }
}

// Changes the stamp at place i, and gives its number.
pub(crate) fn change_stamp(
    kind: Kind,
    days: f64,
    jd1s: &[u8],
    jd2s: &[u8],
    i: usize,
    out1: &mut [u8],
    out2: &mut [u8],
) -> u8
    requires { (HasPlace i jd1s.now jd2s.now) × (HasPlace i out1.old out2.old) }
    ensures { StampPut (changed_stamp (change_of (kind_number kind) days) jd1s.now jd2s.now i) i out1.old out2.old result
        out1.new out2.new }
{
    let a = pattern_at(jd1s, i);
    let b = pattern_at(jd2s, i);
    if is_larger(a, b) {
        if !is_number(a) {
            return PART_NOT_FINITE;
        }
        let x = f64::from_bits(a);
        let y = f64::from_bits(b);
        put_pattern(out1, 8 * i, a);
        put_pattern(out2, 8 * i, floats::to_bits(changed_part(kind, days, x, y)));
        return 0;
    }
    if !is_number(b) {
        return PART_NOT_FINITE;
    }
    let x = f64::from_bits(a);
    let y = f64::from_bits(b);
    put_pattern(out1, 8 * i, floats::to_bits(changed_part(kind, days, y, x)));
    put_pattern(out2, 8 * i, b);
    0
}

// Changes n stamps by one formula, and says how many are refused.
// kept: `inline(always)`, so that the call for each kind has its own loop, in which the compiler knows the formula (up to 8 instructions fewer for each stamp).
#[inline(always)]
pub(crate) fn change_all(
    kind: Kind,
    days: f64,
    jd1s: &[u8],
    jd2s: &[u8],
    n: usize,
    out1: &mut [u8],
    out2: &mut [u8],
    numbers: &mut [u8],
) -> usize
    requires { Roomy n jd1s.now jd2s.now out1.old out2.old numbers.old }
    ensures { RunPut (changed_stamp (change_of (kind_number kind) days) jd1s.now jd2s.now) n out1.old out2.old
        numbers.old result out1.new out2.new numbers.new }
{
    let mut refused = 0;
    for i in 0..n {
        let number = change_stamp(kind, days, jd1s, jd2s, i, out1, out2);
        numbers[i] = number;
        refused += one_if_refused(number);
    }
    refused
}
