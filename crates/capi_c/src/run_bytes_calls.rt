// A recorder's run as bytes: how large it is, and the TAI of its stamps.
ghost use Rattle.c_answers.specs.table.TableBytes.{table_bytes};
ghost use Rattle.line_listing.specs.taken.Run.{run_blocks};
ghost use Rattle.line_listing.specs.taken.Call.{size_of, taken_call};
ghost use Rattle.capi.specs.RunDelivery.{RunDelivered};
ghost use Rattle.capi.specs.RunSizeDelivery.{SizeDelivered};

#[unsafe(no_mangle)]
pub extern "C" fn ct_run_size(run: &[u8], out: &mut [u8]) -> i64
    ensures { SizeDelivered (size_of (run_blocks run.now)) out.old result out.new }
{
    capi::run_bytes_calls::ct_run_size(run, out)
}

#[unsafe(no_mangle)]
pub extern "C" fn ct_take_run(
    scale: u32,
    run: &[u8],
    table: &[u8],
    jd1: &mut [u8],
    jd2: &mut [u8],
    numbers: &mut [u8],
) -> i64
    ensures { RunDelivered (taken_call (table_bytes table.now) scale run.now jd1.old jd2.old
        numbers.old) result jd1.new jd2.new numbers.new }
{
    capi::run_bytes_calls::ct_take_run(scale, run, table, jd1, jd2, numbers)
}
