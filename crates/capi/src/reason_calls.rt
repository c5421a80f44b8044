// A refusal's reason as a sentence: its number, with the values of document 01's test where they are at hand.
ghost use Rattle.reasons.specs.Sentence.{sentence};
ghost use Rattle.reasons.specs.declared.Values.TheVariants.{NoValues, Date, Time, Parts, Number, Count, Block};
ghost use Rattle.c_answers.specs.Delivery.{Delivered};

use c_answers::refused;
use reasons::Values;

fn deliver_reason(number: u32, values: Values, out: &mut [u8]) -> i64
    ensures { Delivered (sentence number values) out.old result out.new }
{
    match reasons::put_reason(number, values, out) {
        Ok(n) => n as i64,
        Err(refusal) => refused(refusal),
    }
}

#[unsafe(no_mangle)]
pub extern "C" fn ct_reason(number: u32, out: &mut [u8]) -> i64
    ensures { Delivered (sentence number NoValues) out.old result out.new }
{
    deliver_reason(number, Values::NoValues, out)
}

#[unsafe(no_mangle)]
pub extern "C" fn ct_date_reason(
    number: u32,
    year: i32,
    month: i32,
    day: i32,
    out: &mut [u8],
) -> i64
    ensures { Delivered (sentence number (Date year month day)) out.old result out.new }
{
    deliver_reason(number, Values::Date(year, month, day), out)
}

#[unsafe(no_mangle)]
pub extern "C" fn ct_time_reason(
    number: u32,
    hour: u8,
    minute: u8,
    second: f64,
    leap: f64,
    out: &mut [u8],
) -> i64
    ensures { Delivered (sentence number (Time hour minute second leap)) out.old result out.new }
{
    deliver_reason(number, Values::Time(hour, minute, second, leap), out)
}

#[unsafe(no_mangle)]
pub extern "C" fn ct_parts_reason(number: u32, jd1: f64, jd2: f64, out: &mut [u8]) -> i64
    ensures { Delivered (sentence number (Parts jd1 jd2)) out.old result out.new }
{
    deliver_reason(number, Values::Parts(jd1, jd2), out)
}

#[unsafe(no_mangle)]
pub extern "C" fn ct_float_reason(number: u32, x: f64, out: &mut [u8]) -> i64
    ensures { Delivered (sentence number (Number x)) out.old result out.new }
{
    deliver_reason(number, Values::Number(x), out)
}

#[unsafe(no_mangle)]
pub extern "C" fn ct_count_reason(number: u32, n: u32, out: &mut [u8]) -> i64
    ensures { Delivered (sentence number (Count n)) out.old result out.new }
{
    deliver_reason(number, Values::Count(n), out)
}

#[unsafe(no_mangle)]
pub extern "C" fn ct_block_reason(
    number: u32,
    length: u64,
    size: u32,
    second_size: u32,
    out: &mut [u8],
) -> i64
    ensures { Delivered (sentence number (Block length size second_size)) out.old result out.new }
{
    deliver_reason(number, Values::Block(length, size, second_size), out)
}
