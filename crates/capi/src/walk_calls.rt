// TAI-UTC at 0h of many dates in time order, in one walk through the table. The length of the table is tested here, its rows by the walk: a test of all rows
// is most of what they cost.
ghost use Rattle.std.specs.Prelude.{length};
ghost use Rattle.refusals.specs.Outcome.{onward};
ghost use Rattle.leap_table.specs.walk.Lists.{walk_of_bytes};
ghost use Rattle.c_answers.specs.table.TableBytes.{table_bytes};
ghost use Rattle.capi.specs.WalkDelivery.{WalkDelivered};

use c_answers::refused;
use c_answers::table::announced_rows_at;
use refusals::Refusal;

#[unsafe(no_mangle)]
pub extern "C" fn ct_offsets_at_0h(dates: &[u8], table: &[u8], out: &mut [u8]) -> i64
    ensures { WalkDelivered (onward (table_bytes table.now) (λ rows. walk_of_bytes rows dates.now (length out.old)))
        out.old result out.new }
{
    if table.len() != 136 {
        return refused(Refusal::LengthWrong);
    }
    let rows = announced_rows_at(table);
    match leap_table::walk::offsets_at_0h_bytes(dates, rows, out) {
        Ok(n) => n as i64,
        Err(refusal) => refused(refusal),
    }
}
