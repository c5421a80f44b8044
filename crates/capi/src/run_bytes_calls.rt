// A recorder's run as bytes: how large it is, and the TAI of its stamps.
// kept: an `if let` after `read_table` and no `?`, and three buffers of one run (C interface).
ghost use Rattle.c_answers.specs.table.TableBytes.{table_bytes};
ghost use Rattle.line_listing.specs.taken.Run.{run_blocks};
ghost use Rattle.line_listing.specs.taken.Call.{size_of, taken_call};
ghost use Rattle.capi.specs.RunDelivery.{RunDelivered};
ghost use Rattle.capi.specs.RunSizeDelivery.{SizeDelivered};

use c_answers::refused;
use c_answers::table::arrays;
use numerals::little_endian::put_nth_u64;
use refusals::Refusal;

#[unsafe(no_mangle)]
pub extern "C" fn ct_run_size(run: &[u8], out: &mut [u8]) -> i64
    ensures { SizeDelivered (size_of (run_blocks run.now)) out.old result out.new }
{
    if out.len() < 32 {
        return refused(Refusal::NoRoom);
    }
    let size = line_listing::taken::run_size(run);
    put_nth_u64(out, 0, size.stamps);
    put_nth_u64(out, 1, size.blocks);
    put_nth_u64(out, 2, size.refused as u64);
    put_nth_u64(out, 3, 1);
    size.bytes as i64
}

#[unsafe(no_mangle)]
pub extern "C" fn ct_take_run(
    scale: u32,
    run: &[u8],
    table: &[u8],
    jd1: &mut [u8],
    jd2: &mut [u8],
    numbers: &mut [u8],
) -> i64
    ensures { RunDelivered (taken_call (table_bytes table.now) scale run.now jd1.old jd2.old
        numbers.old) result jd1.new jd2.new numbers.new }
{
    let mut rows = leap_table::rows::no_rows();
    if let Err(refusal) = arrays::read_table(table, &mut rows) {
        return refused(refusal);
    }
    match line_listing::taken::take_run_by_rows(scale, run, &rows, jd1, jd2, numbers) {
        Ok(n) => n as i64,
        Err(refusal) => refused(refusal),
    }
}
