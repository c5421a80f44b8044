// The walk over lists of bytes, for callers from C: twelve bytes a date, eight an offset, the lowest first.
ghost use Rattle.std.specs.Prelude.{◌≡◌, ◌*◌, ◌≤◌, T, ◌++◌, map, length, drop};
ghost use Rattle.refusals.specs.Outcome.{onward};
ghost use Rattle.leap_table.specs.rows.Table.{starts, rising};
ghost use Rattle.leap_table.specs.rows.Announced.{rows_of, table_of};
ghost use Rattle.leap_table.specs.walk.Rows.{compared};
ghost use Rattle.leap_table.specs.walk.Walk.{month_in, triple_offset};
ghost use Rattle.leap_table.specs.judging.Lists.{dates_from, triple_in};
ghost use Rattle.leap_table.specs.walk.Lists.{walk_of_bytes, in_eights};
ghost use Rattle.leap_table.specs.walk.Call.{WalkCall};
ghost use Rattle.leap_table.specs.walk.Asked.{GoodDates};

use crate::rows::AnnouncedRows;
use refusals::Refusal;

// Walks through the table with n dates, writes their offsets, and says how many rows it compared.
// kept: beside the `walk_all` of numbers, since a generic of both asks more of its reader and its writer than the loop has lines.
fn walk_all(dates: &[u8], n: usize, table: AnnouncedRows, out: &mut [u8]) -> u64
    requires { (GoodDates (triple_in dates.now) n) × (T (rising (starts (rows_of table)))) × (12 * n ≤ length dates.now) × (8 * n ≤ length out.old) }
    ensures { (result ≡ compared (starts (rows_of table)) (map month_in (dates_from (triple_in dates.now) 0 n)))
        × (out.new ≡ in_eights (map (triple_offset (rows_of table)) (dates_from (triple_in dates.now) 0 n)) ++ drop (8 * n) out.old) }
{
    let mut w = super::at_start(table);
    for i in 0..n {
        let t = crate::judging::triple_in(dates, i);
        let x = super::next_offset(&mut w, &table, t);
        numerals::little_endian::put_nth_u64(out, i, floats::to_bits(x));
    }
    w.compared
}

// The offsets at 0h as `offsets_at_0h` gives them, from dates and into places that are bytes. Refusals as there, 14 where the bytes of `dates` are no multiple
// of 12.
pub fn offsets_at_0h_bytes(
    dates: &[u8],
    table: AnnouncedRows,
    out: &mut [u8],
) -> Result<u64, Refusal>
    ensures { WalkCall in_eights (onward (table_of table) (λ rows. walk_of_bytes rows dates.now (length out.old))) out.old
        result out.new }
{
    crate::judging::judge_bytes(dates, table, out.len())?;
    Ok(walk_all(dates, dates.len() / 12, table, out))
}
