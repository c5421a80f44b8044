// A recorder's run as bytes: stamp blocks one after the other, ended by the first that is refused. How large it is, and the TAI of its stamps.
// kept: the loops over a run are `while`: they count no index but go from block to block, and how far it is to the next the block itself says.
// kept: three slices that are written, as ct_take_run lends them one by one.
ghost use Rattle.std.specs.Prelude.{◌≡◌};
ghost use Rattle.refusals.specs.Outcome.{answer, outcome, number_said};
ghost use Rattle.leap_table.specs.rows.Announced.{rows_of, table_of};
ghost use Rattle.runs.specs.by_formula.Run.{run_call};
ghost use Rattle.line_listing.specs.taken.Run.{first_block, run_blocks, stamps_of, taken_run};
ghost use Rattle.line_listing.specs.taken.Call.{size_of, take_refusal, taken_written, taken_by, taken_call};
ghost use Rattle.line_listing.specs.taken.Asked.{block_run, BlockRoom, RunRoom};

use crate::head::smaller;
use leap_table::rows::AnnouncedRows;
use refusals::Refusal;

// How many stamps and blocks a run has up to the first block that is refused, how many bytes these blocks take, and the number of that refusal, 0 where none
// is. kept: a number, since ct_run_size hands it to C, and C hands it back in a RunEnd.
#[derive(Clone, Copy)]
pub struct RunSize {
    pub stamps: u64,
    pub blocks: u64,
    pub bytes: u64,
    pub refused: u32,
}

// The block at the start: its first size says how long it is.
fn first_block(s: &[u8]) -> Result<usize, Refusal>
    ensures { outcome result ≡ first_block s.now }
{
    let n = numerals::little_endian::u32_at(s, 0) as usize;
    let end = smaller(8 + 16 * n, s.len());
    stamps::block_stamps(&s[..end])
}

// How large a run is.
// kept: `match`, since a refused block ends the count, and its number goes into the answer, which C reads.
pub fn run_size(run: &[u8]) -> RunSize
    ensures { result ≡ size_of (run_blocks run.now) }
{
    let mut at: usize = 0;
    let mut stamps: u64 = 0;
    let mut blocks: u64 = 0;
    while at < run.len() {
        match first_block(&run[at..]) {
            Err(refusal) => {
                return RunSize {
                    stamps,
                    blocks,
                    bytes: at as u64,
                    refused: refusal.number(),
                };
            }
            Ok(n) => {
                stamps += n as u64;
                blocks += 1;
                at += 8 + 16 * n;
            }
        }
    }
    RunSize {
        stamps,
        blocks,
        bytes: at as u64,
        refused: 0,
    }
}

// The stamps of the block at the start, which has n: their TAI, or as recorded where they have none, and their numbers. Says how many have none.
fn take_block(
    scale: u32,
    block: &[u8],
    n: usize,
    table: &AnnouncedRows,
    jd1s: &mut [u8],
    jd2s: &mut [u8],
    numbers: &mut [u8],
) -> usize
    requires { BlockRoom scale n block.now jd1s.old jd2s.old numbers.old }
    ensures { run_call (answer result) jd1s.new jd2s.new numbers.new ≡ block_run
        (rows_of table.now) scale n block.now }
{
    let middle = 8 + 8 * n;
    let end = 8 + 16 * n;
    numerals::place::copy(&block[8..middle], jd1s);
    numerals::place::copy(&block[middle..end], jd2s);
    runs::convert_run_by_rows(
        scale,
        constants::scale_numbers::TAI,
        &block[8..middle],
        &block[middle..end],
        table,
        jd1s,
        jd2s,
        numbers,
    )
    .unwrap_or(0)
}

// The stamps of all blocks, one block after the other.
fn take_blocks(
    scale: u32,
    run: &[u8],
    table: &AnnouncedRows,
    jd1s: &mut [u8],
    jd2s: &mut [u8],
    numbers: &mut [u8],
) -> usize
    requires { RunRoom scale run.now jd1s.old jd2s.old numbers.old }
    ensures { run_call (answer result) jd1s.new jd2s.new numbers.new ≡ taken_written (stamps_of (run_blocks run.now
        ).sizes)
        (taken_run (rows_of table.now) scale (run_blocks run.now).sizes run.now)
        jd1s.old jd2s.old numbers.old }
{
    let mut at: usize = 0;
    let mut place: usize = 0;
    let mut refused: usize = 0;
    while at < run.len() {
        let rest = &run[at..];
        let Ok(n) = first_block(rest) else {
            return refused;
        };
        let low = 8 * place;
        let high = low + 8 * n;
        let next = place + n;
        refused += take_block(
            scale,
            rest,
            n,
            table,
            &mut jd1s[low..high],
            &mut jd2s[low..high],
            &mut numbers[place..next],
        );
        place = next;
        at += 8 + 16 * n;
    }
    refused
}

// Whether the scale is that of a run, and there are enough places.
#[tactic(auto, unfolding(crate::specs::taken::Call::take_refusal, refusals::specs::Outcome::number_said, refusals::specs::Refusal::refusal_number))]
fn judge_room(
    scale: u32,
    stamps: u64,
    room1: usize,
    room2: usize,
    room: usize,
) -> Result<(), Refusal>
    ensures { number_said result ≡ take_refusal scale stamps room1 room2 room }
{
    if !runs::is_run_scale(scale) {
        return Err(Refusal::OutOfLimit);
    }
    if ((room1 / 8) as u64) < stamps || ((room2 / 8) as u64) < stamps || (room as u64) < stamps {
        return Err(Refusal::NoRoom);
    }
    Ok(())
}

// By the rows of a table that is tested elsewhere.
pub fn take_run_by_rows(
    scale: u32,
    run: &[u8],
    table: &AnnouncedRows,
    jd1s: &mut [u8],
    jd2s: &mut [u8],
    numbers: &mut [u8],
) -> Result<usize, Refusal>
    ensures { run_call (outcome result) jd1s.new jd2s.new numbers.new ≡ taken_by
        (rows_of table.now) scale (run_blocks run.now).sizes run.now jd1s.old
        jd2s.old numbers.old }
{
    let all = run_size(run);
    judge_room(scale, all.stamps, jd1s.len(), jd2s.len(), numbers.len())?;
    Ok(take_blocks(scale, run, table, jd1s, jd2s, numbers))
}

// kept: the test of the table and the call by its rows, as every call by a table has them: two steps, which are functions already.
// The TAI of the stamps of a run that was recorded in `scale`, as recorded where a stamp has none: the parts of stamp i in the places i of `jd1s` and `jd2s`,
// its number in `numbers`, 0 or that of its refusal, and the number of stamps without TAI as the answer. What lies behind the last stamp's places stays.
// Refusals of the whole run in order, before a byte is written: 20 to 22 the table, 18 a scale that is not UTC, TAI, TT, GPS or TCG, 11 too few places: eight
// bytes of each part and one of the number for each stamp.
pub fn take_run(
    scale: u32,
    run: &[u8],
    table: AnnouncedRows,
    jd1s: &mut [u8],
    jd2s: &mut [u8],
    numbers: &mut [u8],
) -> Result<usize, Refusal>
    ensures { run_call (outcome result) jd1s.new jd2s.new numbers.new ≡ taken_call (table_of table) scale
        run.now jd1s.old jd2s.old numbers.old }
{
    leap_table::rows::judge_table(&table)?;
    take_run_by_rows(scale, run, &table, jd1s, jd2s, numbers)
}
