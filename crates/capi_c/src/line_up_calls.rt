// The stamps of up to three recorders in one order. The two work areas, four bytes for each stamp each, are written too, and what is left in them means
ghost use Rattle.std.specs.Prelude.{length};
ghost use Rattle.line_up.specs.LineUp.{lined_up};
ghost use Rattle.line_listing.specs.order.Order.{lines_in_order};
ghost use Rattle.capi.specs.LineDelivery.{LineDelivered};

#[unsafe(no_mangle)]
pub extern "C" fn ct_line_up(
    jd1: &[u8],
    jd2: &[u8],
    numbers: &mut [u8],
    first_count: u64,
    second_count: u64,
    out: &mut [u8],
    tails: &mut [u8],
    ranks: &mut [u8],
) -> i64
    ensures { LineDelivered (lined_up jd1.now jd2.now numbers.old first_count second_count out.old
        (length tails.old) (length ranks.old)) result numbers.new out.new }
{
    capi::line_up_calls::ct_line_up(
        jd1,
        jd2,
        numbers,
        first_count,
        second_count,
        out,
        tails,
        ranks,
    )
}

#[unsafe(no_mangle)]
pub extern "C" fn ct_lines_in_order(
    jd1: &[u8],
    jd2: &[u8],
    numbers: &mut [u8],
    first_count: u64,
    second_count: u64,
    order: &mut [u8],
    work1: &mut [u8],
    work2: &mut [u8],
) -> i64
    ensures { LineDelivered (lines_in_order jd1.now jd2.now numbers.old first_count second_count
        order.old (length work1.old) (length work2.old)) result numbers.new order.new }
{
    capi::line_up_calls::ct_lines_in_order(
        jd1,
        jd2,
        numbers,
        first_count,
        second_count,
        order,
        work1,
        work2,
    )
}
