// Passes and ticks judged before one is placed. Lists are bytes: eight for a number, the lowest first.
// kept: the lists of the passes stand beside one another here, as C hands them over (ct_place_ticks, ct_place_readings).
ghost use Rattle.std.specs.Prelude.{◌≡◌, ◌&&◌, ◌+◌, ◌*◌, ◌≤◌, length};
ghost use Rattle.refusals.specs.Outcome.{number_said};
ghost use Rattle.ticks.specs.judging.Numbers.{all_small, all_rising, inside};
ghost use Rattle.ticks.specs.judging.Refusing.{number_at, numbers_in, whole_numbers, well_counted, judged_by, passes_refusal, refused_by};

use refusals::Refusal;

// Ticks and milliseconds are below 2^40.
const LIMIT: u64 = 0x100_0000_0000;

// Number i of a list that has it. Read from a part of eight bytes, it needs no test of the length.
pub(crate) fn number_at(s: &[u8], i: usize) -> u64
    requires { 8 * i + 8 ≤ length s.now }
    ensures { result ≡ number_at s.now i }
{
    let at = 8 * i;
    let end = at + 8;
    numerals::little_endian::u64_at(&s[at..end], 0)
}

// Whether each number but the last is below the next.
fn all_rising(s: &[u8]) -> bool
    requires { 1 ≤ numbers_in s.now }
    ensures { result ≡ all_rising (numbers_in s.now) (number_at s.now) }
{
    let n = s.len() / 8;
    let mut before = number_at(s, 0);
    for i in 1..n {
        let next = number_at(s, i);
        if next <= before {
            return false;
        }
        before = next;
    }
    true
}

// Whether all numbers lie from `first` to `last`.
fn all_inside(s: &[u8], first: u64, last: u64) -> bool
    ensures { result ≡ inside first last (numbers_in s.now) (number_at s.now) }
{
    let n = s.len() / 8;
    for i in 0..n {
        let t = number_at(s, i);
        if t < first || last < t {
            return false;
        }
    }
    true
}

// Whether the passes are as many in both lists, 2 to 2,000.
#[tactic(auto, unfolding(crate::specs::judging::Refusing::well_counted))]
fn well_counted(passes: &[u8], millis: &[u8]) -> bool
    ensures { result ≡ well_counted passes.now millis.now }
{
    let n = passes.len() / 8;
    n == millis.len() / 8 && 2 <= n && n <= 2000
}

// Whether the numbers of both lists are below 2^40.
#[tactic(auto, using(crate::proofs::judging::Checks::small_inside))]
fn both_small(passes: &[u8], millis: &[u8]) -> bool
    requires { numbers_in passes.now ≡ numbers_in millis.now }
    ensures { result ≡ all_small (numbers_in passes.now) (number_at passes.now) && all_small (numbers_in passes.now) (number_at millis.now) }
{
    all_inside(passes, 0, LIMIT - 1) && all_inside(millis, 0, LIMIT - 1)
}

// Whether both lists rise.
// kept: beside both_small, since a function for both would be longer than the two.
fn both_rising(passes: &[u8], millis: &[u8]) -> bool
    requires { (1 ≤ numbers_in passes.now) × (numbers_in passes.now ≡ numbers_in millis.now) }
    ensures { result ≡ all_rising (numbers_in passes.now) (number_at passes.now) && all_rising (numbers_in passes.now) (number_at millis.now) }
{
    all_rising(passes) && all_rising(millis)
}

// Judges passes by their numbers. Of numbers that rise the last is the largest, so that only passes which do not rise are looked at twice.
fn judge_numbers(passes: &[u8], millis: &[u8]) -> Result<(), Refusal>
    requires { (1 ≤ numbers_in passes.now) × (numbers_in passes.now ≡ numbers_in millis.now) }
    ensures { number_said result ≡ judged_by (numbers_in passes.now) (number_at passes.now) (number_at millis.now) }
{
    if !both_rising(passes, millis) {
        if both_small(passes, millis) {
            return Err(Refusal::PassesNotRising);
        }
        return Err(Refusal::PassesNotUsable);
    }
    let last = passes.len() / 8 - 1;
    if LIMIT <= number_at(passes, last) {
        return Err(Refusal::PassesNotUsable);
    }
    if LIMIT <= number_at(millis, last) {
        return Err(Refusal::PassesNotUsable);
    }
    Ok(())
}

// Whether three lists are made of numbers of eight bytes.
pub(crate) fn whole_lists(passes: &[u8], millis: &[u8], ticks: &[u8]) -> bool
    ensures { result ≡ (whole_numbers passes.now && (whole_numbers millis.now && whole_numbers ticks.now)) }
{
    passes.len() % 8 == 0 && millis.len() % 8 == 0 && ticks.len() % 8 == 0
}

// Judges the passes alone.
pub(crate) fn judge_passes(passes: &[u8], millis: &[u8]) -> Result<(), Refusal>
    ensures { number_said result ≡ passes_refusal passes.now millis.now }
{
    if !well_counted(passes, millis) {
        return Err(Refusal::PassesNotUsable);
    }
    judge_numbers(passes, millis)
}

// Judges passes, ticks and the room for them. All is judged before a place is written.
pub fn judge(passes: &[u8], millis: &[u8], ticks: &[u8], room: usize) -> Result<(), Refusal>
    ensures { number_said result ≡ refused_by passes.now millis.now ticks.now room }
{
    if !whole_lists(passes, millis, ticks) {
        return Err(Refusal::LengthWrong);
    }
    if room / 8 < ticks.len() / 8 {
        return Err(Refusal::NoRoom);
    }
    judge_passes(passes, millis)?;
    let first = number_at(passes, 0);
    let last = number_at(passes, passes.len() / 8 - 1);
    if !all_inside(ticks, first, last) {
        return Err(Refusal::TickOutsidePasses);
    }
    Ok(())
}
