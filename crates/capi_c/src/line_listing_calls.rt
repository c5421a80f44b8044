// The listing of three recorders in parts.
ghost use Rattle.std.specs.Prelude.{length};
ghost use Rattle.c_answers.specs.table.TableBytes.{table_bytes};
ghost use Rattle.capi.specs.LineListingDelivery.{part_asked, PartDelivered};

#[unsafe(no_mangle)]
pub extern "C" fn ct_line_listing_part(
    reasons: u32,
    runs: &[u8],
    jd1: &[u8],
    jd2: &[u8],
    numbers: &[u8],
    order: &[u8],
    table: &[u8],
    cursor: &mut [u8],
    out: &mut [u8],
) -> i64
    ensures { PartDelivered (part_asked «reasons» runs.now jd1.now jd2.now numbers.now order.now
        cursor.old (length out.old) (table_bytes table.now)) cursor.old out.old result cursor.new
        out.new }
{
    capi::line_listing_calls::ct_line_listing_part(
        reasons, runs, jd1, jd2, numbers, order, table, cursor, out,
    )
}
