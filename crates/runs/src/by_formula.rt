// A run by one conversion that reads no table, with an offset for each stamp where one is taken. The parts of the stamps, the offsets and the parts of the
// dates are bytes, eight each, the lowest first.
// kept: the parts stay bytes in two slices, and the parts that are written and the numbers in three, as C lends them (ct_formula_run).
mod changes;
mod offsets;
mod pairs;

ghost use Rattle.std.specs.Prelude.{◌≡◌, ◌+◌, ◌*◌, ◌≤◌, cond, eqb, length};
ghost use Rattle.refusals.specs.Outcome.{outcome, number_said};
ghost use Rattle.std.specs.Float.{binary64};
ghost use Rattle.std.specs.Float.Ieee.{of_bits};
ghost use Rattle.std.specs.Float.Ieee.Scale.{finite};
ghost use Rattle.std.proofs.lemmas.List.Edits.{sets};
ghost use Rattle.numerals.specs.little_endian.LittleEndian.{u64_at, eight_bytes};
ghost use Rattle.runs.specs.by_formula.Run.{run_call};
ghost use Rattle.runs.specs.by_formula.Formula.{formula_run};
ghost use Rattle.runs.specs.by_formula.Asked.{kind_number, kind_refusal};

use changes::change_all;
use offsets::offset_all;
use pairs::Kind;
use refusals::Refusal;

// The number of a stamp with a part that is not finite.
// kept: a byte and no `Result`: it goes into `numbers`, which C reads (ct_convert_run, ct_formula_run).
pub(crate) const PART_NOT_FINITE: u8 = Refusal::PartNotFinite as u8;

// kept: this and put_pattern, beside `number_at` and `put_number` of ticks: public functions have no `requires` (a rule of the project), so that those of
// numerals make the test that is spared here.
// Number i of a list that has it. Read from a part of eight bytes, it needs no test of the length.
pub(crate) fn pattern_at(s: &[u8], i: usize) -> u64
    requires { 8 * i + 8 ≤ length s.now }
    ensures { result ≡ u64_at s.now (8 * i) }
{
    let at = 8 * i;
    let end = at + 8;
    numerals::little_endian::u64_at(&s[at..end], 0)
}

// The eight bytes of a pattern at a place of the lent list.
pub(crate) fn put_pattern(out: &mut [u8], at: usize, n: u64)
    requires { at + 8 ≤ length out.old }
    ensures { out.new ≡ sets out.old at (eight_bytes n) }
{
    let end = at + 8;
    numerals::little_endian::put_u64(&mut out[at..end], n);
}

// Whether a pattern is a finite number's: its exponent is not all ones.
pub(crate) fn is_number(n: u64) -> bool
    ensures { result ≡ finite (of_bits binary64 n) }
{
    n % 0x8000_0000_0000_0000 < 0x7ff0_0000_0000_0000
}

pub fn one_if_refused(number: u8) -> usize
    ensures { (result ≡ cond (eqb number 0) 0 1) × (result ≤ 1) }
{
    usize::from(number != 0)
}

// Whether the scales are those of a formula, and the lengths go together. `kind` is that of the conversion.
#[tactic(auto, unfolding(crate::specs::by_formula::Asked::kind_refusal, refusals::specs::Outcome::number_said, refusals::specs::Refusal::refusal_number))]
fn judge_formula(
    kind: Kind,
    size1: usize,
    size2: usize,
    size3: usize,
    room1: usize,
    room2: usize,
    room: usize,
) -> Result<(), Refusal>
    ensures { number_said result ≡ kind_refusal (kind_number kind) size1 size2 size3 room1 room2 room }
{
    if pairs::is_none(kind) {
        return Err(Refusal::OutOfLimit);
    }
    if size1 % 8 != 0 || size2 % 8 != 0 || size3 % 8 != 0 {
        return Err(Refusal::LengthWrong);
    }
    if size1 != size2 || size3 != pairs::size_due(kind, size1) {
        return Err(Refusal::SizesDiffer);
    }
    if room1 < size1 || room2 < size1 || room < size1 / 8 {
        return Err(Refusal::NoRoom);
    }
    Ok(())
}

// The dates in scale `to` of a run of stamps in scale `from`: GPS and TAI, TT and TAI, TT and TCG, TCB and TDB, each way; and TAI and UT1, UT1 and TT, TT and
// TDB by an offset in seconds for each stamp, which is that of the second scale less the first: `offsets` has one for each stamp then, and else no byte. The
// parts of stamp i go into the places i of `out1` and `out2`, its number into `numbers`, 0 or that of its refusal, and the number of refused stamps is the
// answer. A refused stamp's places stay. Refusals of the whole run in order, before a byte is written: 18 two scales that are no such pair, 14 a length of
// parts or offsets that is no multiple of eight, 12 another number of second parts than of first, or of offsets than is due, 11 too few places.
pub fn formula_run(
    from: u32,
    to: u32,
    jd1s: &[u8],
    jd2s: &[u8],
    offsets: &[u8],
    out1: &mut [u8],
    out2: &mut [u8],
    numbers: &mut [u8],
) -> Result<usize, Refusal>
    ensures { run_call (outcome result) out1.new out2.new numbers.new ≡ formula_run from to jd1s.now
        jd2s.now offsets.now out1.old out2.old numbers.old }
{
    let found = pairs::formula_of(from, to);
    judge_formula(
        found.kind,
        jd1s.len(),
        jd2s.len(),
        offsets.len(),
        out1.len(),
        out2.len(),
        numbers.len(),
    )?;
    let n = jd1s.len() / 8;
    let days = found.days;
    Ok(match found.kind {
        Kind::Later => offset_all(false, jd1s, jd2s, offsets, n, out1, out2, numbers),
        Kind::Earlier => offset_all(true, jd1s, jd2s, offsets, n, out1, out2, numbers),
        Kind::Shift => change_all(Kind::Shift, days, jd1s, jd2s, n, out1, out2, numbers),
        Kind::TtToTcg => change_all(Kind::TtToTcg, days, jd1s, jd2s, n, out1, out2, numbers),
        Kind::TcgToTt => change_all(Kind::TcgToTt, days, jd1s, jd2s, n, out1, out2, numbers),
        Kind::TcbToTdb => change_all(Kind::TcbToTdb, days, jd1s, jd2s, n, out1, out2, numbers),
        _ => change_all(Kind::TdbToTcb, days, jd1s, jd2s, n, out1, out2, numbers),
    })
}
