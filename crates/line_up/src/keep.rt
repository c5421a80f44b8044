// Which stamps of a run are kept: the most that rise, so that one that is far too late, or too early, is left out alone. The parts of the stamps and the work
// areas are bytes.
// kept: the two lists of parts side by side, here and in lib.rt: with a struct of the two, by value or by reference, a call with 30 in a hundred out of
// order took 309 to 334 ms or 314 to 329, in place of 300 to 308. And `tails` with the number of the piles beside it: by the part of `tails` that has the piles
// it took 287 to 341 ms in place of 284 to 312.
ghost use Rattle.std.specs.Prelude.{◌≡◌, length, get_or, take, set, ◌≤◌, ◌<◌};
ghost use Rattle.line_up.specs.keep.Piles as P;
ghost use Rattle.line_up.specs.keep.Stamps as U;
ghost use Rattle.line_up.specs.keep.Cells as C;
ghost use Rattle.line_up.specs.keep.Asked as N;

// Whether the stamp at place i comes before that at j.
#[tactic(auto, unfolding(crate::specs::keep::Stamps::sooner_at))]
pub(crate) fn sooner_at(jd1s: &[u8], jd2s: &[u8], i: usize, j: usize) -> bool
    ensures { result ≡ U.sooner_at jd1s.now jd2s.now i j }
{
    let a = julian::stamp_lists::stamp_of(jd1s, jd2s, i);
    let b = julian::stamp_lists::stamp_of(jd1s, jd2s, j);
    julian::order::is_earlier(a, b)
}

// The number in cell k.
fn cell_at(tails: &[u8], k: usize) -> usize
    requires { k < length (C.cells tails.now) }
    ensures { result ≡ get_or (C.cells tails.now) k 0 }
{
    numerals::little_endian::nth_u32(tails, k) as usize
}

// Puts p into cell k.
fn put_cell(tails: &mut [u8], k: usize, p: usize)
    requires k_in_bounds { k < length (C.cells tails.old) }
    requires p_bound { p ≤ 4294967295 }
    ensures { C.cells tails.new ≡ set (C.cells tails.old) k p }
{
    numerals::little_endian::put_nth_u32(tails, k, p as u32);
}

// Puts place i on pile r, counted from 1; 0 for none.
// kept: 0 for no pile, here and in `rank`, and no `Option`: the number goes into a cell of `ranks`, which C lends.
fn put_tail(tails: &mut [u8], r: usize, i: usize)
    requires r_in_bounds { r ≤ length (C.cells tails.old) }
    requires i_bound { i ≤ 4294967295 }
    ensures { C.cells tails.new ≡ N.tail_put (C.cells tails.old) r i }
{
    if r > 0 {
        put_cell(tails, r - 1, i);
    }
}

// How many piles stand before that of the stamp at place i, by halves.
fn search(jd1s: &[u8], jd2s: &[u8], tails: &[u8], many: usize, i: usize) -> usize
    requires { N.Searchable (U.sooner_at jd1s.now jd2s.now) (C.cells tails.now) many i }
    ensures { result ≡ P.piles_before (U.sooner_at jd1s.now jd2s.now) i (take many (C.cells tails.now)) }
{
    let mut low: usize = 0;
    let mut high = many;
    // kept: `as_chunks::<4>` and `partition_point` ask of one stamp more. The search alone, built with each: 90 ns and not 71 among 100 piles, 145 and not 122
    // among 1,000.
    while low < high {
        let mid = low + (high - low) / 2;
        if sooner_at(jd1s, jd2s, i, cell_at(tails, mid)) {
            high = mid;
        } else {
            low = mid + 1;
        }
    }
    low
}

// The same, with a look at the last pile first: where stamps rise it is the only one.
fn piles_before(jd1s: &[u8], jd2s: &[u8], tails: &[u8], many: usize, i: usize) -> usize
    requires { N.Searchable (U.sooner_at jd1s.now jd2s.now) (C.cells tails.now) many i }
    ensures { result ≡ P.piles_before (U.sooner_at jd1s.now jd2s.now) i (take many (C.cells tails.now)) }
{
    if many == 0 {
        return 0;
    }
    if sooner_at(jd1s, jd2s, i, cell_at(tails, many - 1)) {
        return search(jd1s, jd2s, tails, many, i);
    }
    many
}

// The pile of the stamp at place i, counted from 1; 0 for one that is refused.
fn rank(jd1s: &[u8], jd2s: &[u8], number: u8, tails: &[u8], many: usize, i: usize) -> usize
    requires many_bound { many < 18446744073709551615 }
    requires searchable { number ≡ 0 → N.Searchable (U.sooner_at jd1s.now jd2s.now) (C.cells tails.now) many i }
    ensures { result ≡ P.rank (U.sooner_at jd1s.now jd2s.now) number i (take many (C.cells tails.now)) }
{
    if number == 0 {
        return piles_before(jd1s, jd2s, tails, many, i) + 1;
    }
    0
}

// Lays each stamp of a run on its pile: which pile it is goes to `ranks`, and the number of the piles is the answer.
fn lay(
    jd1s: &[u8],
    jd2s: &[u8],
    numbers: &[u8],
    from: usize,
    to: usize,
    tails: &mut [u8],
    ranks: &mut [u8],
) -> usize
    requires { N.LentCells jd1s.now jd2s.now numbers.now from to tails.old ranks.old }
    ensures { N.Laid (U.sooner_at jd1s.now jd2s.now) numbers.now from to (C.cells ranks.new) result }
{
    let mut many: usize = 0;
    for i in from..to {
        let r = rank(jd1s, jd2s, numbers[i], tails, many, i);
        put_tail(tails, r, i);
        put_cell(ranks, i, r);
        many = many.max(r);
    }
    many
}

const OUT_OF_ORDER: u8 = refusals::Refusal::OutOfOrder as u8;

// The number of a stamp of pile r, where one of pile `wanted` is to be kept.
// kept: a byte of the caller's list, as in `tested` (C interface): nothing is refused here, a stamp is numbered.
fn judged(number: u8, r: usize, wanted: usize) -> u8
    ensures { result ≡ P.number_by_pile number r wanted }
{
    if number == 0 && r != wanted {
        return OUT_OF_ORDER;
    }
    number
}

fn wanted_before(r: usize, wanted: usize) -> usize
    ensures { result ≡ P.wanted_before r wanted }
{
    if r == wanted && r > 0 {
        return r - 1;
    }
    wanted
}

// Keeps one stamp of each pile, from the last pile back.
fn judge(numbers: &mut [u8], ranks: &[u8], from: usize, to: usize, many: usize)
    requires { N.Judgeable numbers.old (C.cells ranks.now) from to }
    ensures { numbers.new ≡ N.run_judged numbers.old (C.cells ranks.now) from to many }
{
    let mut wanted = many;
    for i in (from..to).rev() {
        let r = cell_at(ranks, i);
        numbers[i] = judged(numbers[i], r, wanted);
        wanted = wanted_before(r, wanted);
    }
}

// Of the stamps of a run that have number 0 the most that rise keep it, and the others get 17. No stamp that has number 0 may be unordered.
pub(crate) fn keep_most(
    jd1s: &[u8],
    jd2s: &[u8],
    numbers: &mut [u8],
    from: usize,
    to: usize,
    tails: &mut [u8],
    ranks: &mut [u8],
)
    requires { N.Lent jd1s.now jd2s.now numbers.old from to tails.old ranks.old }
    ensures { numbers.new ≡ P.run_kept (U.sooner_at jd1s.now jd2s.now) numbers.old from to }
{
    let many = lay(jd1s, jd2s, numbers, from, to, tails, ranks);
    judge(numbers, ranks, from, to, many);
}
