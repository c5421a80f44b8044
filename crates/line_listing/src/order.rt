// Every stamp's place in the listing: the ordered ones by their TAI, the others behind the last ordered one before them in their run.
// kept: C interface: places stand in four bytes each, in the areas that ct_lines_in_order lends.
ghost use Rattle.std.specs.Prelude.{◌≡◌, suc, ◌*◌, ◌∷◌, ◌++◌, length, take, drop};
ghost use Rattle.line_up.specs.LineUp as U;
ghost use Rattle.line_up.specs.keep.Cells as C;
ghost use Rattle.line_listing.specs.order.Order as O;
ghost use Rattle.line_listing.specs.order.Asked as N;

use refusals::Refusal;

// Where the run of place p ends.
fn run_end(end1: usize, end2: usize, n: usize, p: usize) -> usize
    ensures { result ≡ O.run_end end1 end2 n p }
{
    if p < end1 {
        return end1;
    }
    if p < end2 {
        return end2;
    }
    n
}

// Writes the places from `from` up to the first ordered one, or up to `to`, from place k of `out` on; the answer is the place behind them.
fn put_behind(numbers: &[u8], from: usize, to: usize, out: &mut [u8], k: usize) -> usize
    requires { N.Puttable numbers.now from to out.old k }
    ensures { N.PlacesPut out.old out.new k (O.behind numbers.now from to) result }
{
    let mut at = k;
    for i in from..to {
        if numbers[i] == 0 {
            return at;
        }
        numerals::little_endian::put_nth_u32(out, at, i as u32);
        at += 1;
    }
    at
}

// Writes place p and those behind it, up to the next ordered one of its run, which ends at `to`.
fn put_one(numbers: &[u8], p: usize, to: usize, out: &mut [u8], k: usize) -> usize
    requires { N.OnePuttable numbers.now p to out.old k }
    ensures { N.PlacesPut out.old out.new k (p ∷ O.behind numbers.now (suc p) to) result }
{
    numerals::little_endian::put_nth_u32(out, k, p as u32);
    put_behind(numbers, p + 1, to, out, k + 1)
}

// Writes the places that have no ordered one before them in their run.
fn put_starts(numbers: &[u8], end1: usize, end2: usize, out: &mut [u8]) -> usize
    requires { N.StartsPuttable numbers.now end1 end2 out.old }
    ensures { N.PlacesPut out.old out.new 0 (O.run_starts numbers.now end1 end2) result }
{
    let n = numbers.len();
    let k = put_behind(numbers, 0, end1, out, 0);
    let m = put_behind(numbers, end1, end2, out, k);
    put_behind(numbers, end2, n, out, m)
}

// Writes all places, with the ordered ones in the first cells of `places`.
fn put_lines(numbers: &[u8], end1: usize, end2: usize, places: &[u8], many: usize, out: &mut [u8])
    requires { N.Listable numbers.now end1 end2 places.now many out.old }
    ensures { out.new ≡ U.places_bytes (O.line_order numbers.now end1 end2 (take many (C.cells places.now)))
        ++ drop (4 * length numbers.now) out.old }
{
    let n = numbers.len();
    let mut k = put_starts(numbers, end1, end2, out);
    for j in 0..many {
        let p = numerals::little_endian::nth_u32(places, j) as usize;
        let to = run_end(end1, end2, n, p);
        k = put_one(numbers, p, to, out, k);
    }
}

// Copies the first cells of one area into another.
fn copy_cells(from: &[u8], many: usize, to: &mut [u8])
    requires { N.Copyable from.now to.old many }
    ensures { take many (C.cells to.new) ≡ take many (C.cells from.now) }
{
    for j in 0..many {
        let p = numerals::little_endian::nth_u32(from, j);
        numerals::little_endian::put_nth_u32(to, j, p);
    }
}

// Lines the stamps up and writes the places of all of them in the order of the listing's lines, four bytes each, into `order`: those that have no ordered
// stamp before them in their run, run by run; then each ordered one, and behind it those of its run up to its next ordered one. Numbers, runs, refusals and
// work areas are those of `line_up`, and so is the answer, how many are ordered; a refused call writes nothing.
pub fn lines_in_order(
    jd1s: &[u8],
    jd2s: &[u8],
    numbers: &mut [u8],
    first: usize,
    second: usize,
    order: &mut [u8],
    work1: &mut [u8],
    work2: &mut [u8],
) -> Result<u32, Refusal>
    ensures { U.result result numbers.new order.new ≡ O.lines_in_order jd1s.now jd2s.now numbers.old
        first second order.old (length work1.old) (length work2.old) }
{
    let count = line_up::line_up(jd1s, jd2s, numbers, first, second, order, work1, work2)?;
    let many = count as usize;
    let rest = first + second;
    copy_cells(order, many, work1);
    put_lines(numbers, first, rest, work1, many, order);
    Ok(count)
}
