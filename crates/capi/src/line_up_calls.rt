// The stamps of up to three recorders in one order. The two work areas, four bytes for each stamp each, are written too, and what is left in them means
// nothing.
// kept: parts and numbers in slices beside each other, counts beside them (C interface).
ghost use Rattle.std.specs.Prelude.{length};
ghost use Rattle.line_up.specs.LineUp.{lined_up};
ghost use Rattle.line_listing.specs.order.Order.{lines_in_order};
ghost use Rattle.capi.specs.LineDelivery.{LineDelivered};

use c_answers::refused;

#[unsafe(no_mangle)]
pub extern "C" fn ct_line_up(
    jd1: &[u8],
    jd2: &[u8],
    numbers: &mut [u8],
    first_count: u64,
    second_count: u64,
    out: &mut [u8],
    tails: &mut [u8],
    ranks: &mut [u8],
) -> i64
    ensures { LineDelivered (lined_up jd1.now jd2.now numbers.old first_count second_count out.old
        (length tails.old) (length ranks.old)) result numbers.new out.new }
{
    match line_up::line_up(
        jd1,
        jd2,
        numbers,
        first_count as usize,
        second_count as usize,
        out,
        tails,
        ranks,
    ) {
        Ok(n) => n as i64,
        Err(refusal) => refused(refusal),
    }
}

#[unsafe(no_mangle)]
pub extern "C" fn ct_lines_in_order(
    jd1: &[u8],
    jd2: &[u8],
    numbers: &mut [u8],
    first_count: u64,
    second_count: u64,
    order: &mut [u8],
    work1: &mut [u8],
    work2: &mut [u8],
) -> i64
    ensures { LineDelivered (lines_in_order jd1.now jd2.now numbers.old first_count second_count
        order.old (length work1.old) (length work2.old)) result numbers.new order.new }
{
    match line_listing::order::lines_in_order(
        jd1,
        jd2,
        numbers,
        first_count as usize,
        second_count as usize,
        order,
        work1,
        work2,
    ) {
        Ok(n) => n as i64,
        Err(refusal) => refused(refusal),
    }
}
