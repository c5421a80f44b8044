// The stamps of up to three recorders, in TAI, in one order by their exact sums. The parts of the stamps and the places are bytes, the lowest first.
#![tactic(auto)]

ghost use Rattle.std.specs.Prelude.{◌≡◌, length, ◌≤◌, ◌<◌};
ghost use Rattle.refusals.specs.Outcome.{number_said};
ghost use Rattle.line_up.specs.Runs as R;
ghost use Rattle.line_up.specs.LineUp as U;
ghost use Rattle.line_up.specs.Asked as N;

use refusals::Refusal;

pub mod keep;

const PART_NOT_FINITE: u8 = Refusal::PartNotFinite as u8;

// The number of the stamp at place i: 9 where it comes in with 0 and has no place in the order, as a NaN has none.
#[tactic(auto, unfolding(crate::specs::Runs::tested, crate::specs::keep::Stamps::unordered_at))]
fn tested(jd1s: &[u8], jd2s: &[u8], number: u8, i: usize) -> u8
    ensures { result ≡ R.tested (U.unordered_at jd1s.now jd2s.now) number i }
{
    if number == 0 && !julian::order::has_place(julian::stamp_lists::stamp_of(jd1s, jd2s, i)) {
        return PART_NOT_FINITE;
    }
    number
}

// Refuses each unordered stamp that nothing refused before.
fn refuse_unordered(jd1s: &[u8], jd2s: &[u8], numbers: &mut [u8])
    ensures { numbers.new ≡ R.all_tested (U.unordered_at jd1s.now jd2s.now) 0 numbers.old }
{
    for (i, number) in numbers.iter_mut().enumerate() {
        *number = tested(jd1s, jd2s, *number, i);
    }
}

// The first accepted place from `from` up to `to`, or the length.
// kept: the length for no place, here and in `pick`, and no `Option`: the definitions `first_or` and `pick` have it so.
// kept: no `position` in `numbers[from..to]`: `advance` asks from p + 1 on, and nothing promises there that this is not behind `to`.
fn next_accepted(numbers: &[u8], from: usize, to: usize) -> usize
    requires { to ≤ length numbers.now }
    ensures { result ≡ R.first_or (length numbers.now) (R.accepted_in numbers.now from to) }
{
    for i in from..to {
        if numbers[i] == 0 {
            return i;
        }
    }
    numbers.len()
}

// The cursor x of a run that ends at `to`, after place p went into the order.
#[tactic(auto, unfolding(crate::specs::Runs::cursor_after))]
fn advance(numbers: &[u8], to: usize, p: usize, x: usize) -> usize
    requires to_in_bounds { to ≤ length numbers.now }
    requires p_in_bounds { p < length numbers.now }
    ensures { result ≡ R.cursor_after numbers.now to p x }
{
    if p == x {
        return next_accepted(numbers, p + 1, to);
    }
    x
}

// Of two places the one that goes first; n is no place.
#[tactic(auto, unfolding(crate::specs::Runs::pick))]
fn pick(jd1s: &[u8], jd2s: &[u8], n: usize, x: usize, y: usize) -> usize
    ensures { result ≡ R.pick (U.sooner_at jd1s.now jd2s.now) n x y }
{
    if n <= y {
        return x;
    }
    if n <= x {
        return y;
    }
    if crate::keep::sooner_at(jd1s, jd2s, y, x) {
        return y;
    }
    x
}

fn pick_of_three(jd1s: &[u8], jd2s: &[u8], n: usize, x: usize, y: usize, z: usize) -> usize
    ensures { result ≡ R.pick (U.sooner_at jd1s.now jd2s.now) n (R.pick (U.sooner_at jd1s.now jd2s.now) n x y) z }
{
    let q = pick(jd1s, jd2s, n, x, y);
    pick(jd1s, jd2s, n, q, z)
}

// The merge of the runs, which end at two places and at the length, with a cursor in each: the end1 accepted place that is left of it, or the length.
fn merge(
    jd1s: &[u8],
    jd2s: &[u8],
    numbers: &[u8],
    end1: usize,
    end2: usize,
    out: &mut [u8],
) -> usize
    requires { N.Mergeable numbers.now end1 end2 out.old }
    ensures { N.Merged (U.sooner_at jd1s.now jd2s.now) numbers.now end1 end2 out.old out.new result }
{
    let n = numbers.len();
    let mut x = next_accepted(numbers, 0, end1);
    let mut y = next_accepted(numbers, end1, end2);
    let mut z = next_accepted(numbers, end2, n);
    let mut p = pick_of_three(jd1s, jd2s, n, x, y, z);
    let mut k: usize = 0;
    // kept: a `while`, since no number of turns is known before; k is the answer.
    while p < n {
        numerals::little_endian::put_nth_u32(out, k, p as u32);
        k += 1;
        x = advance(numbers, end1, p, x);
        y = advance(numbers, end2, p, y);
        z = advance(numbers, n, p, z);
        p = pick_of_three(jd1s, jd2s, n, x, y, z);
    }
    k
}

// Refuses by the sizes.
#[tactic(auto, unfolding(refusals::specs::Outcome::number_said, refusals::specs::Refusal::refusal_number, crate::specs::LineUp::line_refusal))]
fn line_refusal(
    size1: usize,
    size2: usize,
    n: usize,
    first: usize,
    second: usize,
    room: usize,
) -> Result<(), Refusal>
    ensures { number_said result ≡ U.line_refusal size1 size2 n first second room }
{
    if size1 % 8 != 0 || size2 % 8 != 0 {
        return Err(Refusal::LengthWrong);
    }
    if size1 / 8 != n || size2 / 8 != n {
        return Err(Refusal::SizesDiffer);
    }
    if first > n || second > n - first {
        return Err(Refusal::LengthWrong);
    }
    if n > 4294967295 {
        return Err(Refusal::TooManyStamps);
    }
    if room / 4 < n {
        return Err(Refusal::NoRoom);
    }
    Ok(())
}

// The places of the accepted stamps (number 0) in the order of their exact sums, four bytes each in `out`; ties by run and then by place. The runs stand one
// after the other, the third is what is left. A stamp that comes in with number 0 and is unordered gets number 9; of the others of a run the most that rise
// stay at 0, and the rest get 17. Refusals in order: 14 a length of parts that is no multiple of eight, 12 not as many parts as numbers, 14 counts past the
// length, 13 more stamps than a place of four bytes can number, 11 fewer than four bytes for each stamp in `out` or in a work area; a refused call writes
// nothing.
pub fn line_up(
    jd1s: &[u8],
    jd2s: &[u8],
    numbers: &mut [u8],
    first: usize,
    second: usize,
    out: &mut [u8],
    tails: &mut [u8],
    ranks: &mut [u8],
) -> Result<u32, Refusal>
    ensures { U.result result numbers.new out.new ≡ U.lined_up jd1s.now jd2s.now numbers.old first
        second out.old (length tails.old) (length ranks.old) }
{
    let n = numbers.len();
    let room = out.len().min(tails.len().min(ranks.len()));
    line_refusal(jd1s.len(), jd2s.len(), n, first, second, room)?;
    let rest = first + second;
    refuse_unordered(jd1s, jd2s, numbers);
    crate::keep::keep_most(jd1s, jd2s, numbers, 0, first, tails, ranks);
    crate::keep::keep_most(jd1s, jd2s, numbers, first, rest, tails, ranks);
    crate::keep::keep_most(jd1s, jd2s, numbers, rest, n, tails, ranks);
    let many = merge(jd1s, jd2s, numbers, first, rest, out) as u32;
    Ok(many)
}
