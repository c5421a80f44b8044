// Answers of two calls on the parts of dates.
ghost use Rattle.std.specs.Prelude.{◌≡◌};
ghost use Rattle.refusals.specs.Outcome.{outcome};
ghost use Rattle.julian.specs.JulianDate.{julian, difference};
ghost use Rattle.julian.specs.Calendar.{julian_to_calendar};
ghost use Rattle.c_answers.specs.Delivery.{in_bytes, Delivered};
ghost use Rattle.c_answers.specs.Fields.{calendar_bytes};

use crate::{fields, refused};
use julian::{CalendarFields, JulianDate};
use refusals::Refusal;

// kept: `match`, since both arms give the code that C reads.
fn put_calendar(found: Result<CalendarFields, Refusal>, out: &mut [u8]) -> i64
    ensures { Delivered (in_bytes calendar_bytes (outcome found)) out.old result out.new }
{
    match found {
        Ok(shown) => fields::put_calendar(shown, out),
        Err(refusal) => refused(refusal),
    }
}

pub fn julian_to_calendar(jd1: f64, jd2: f64, out: &mut [u8]) -> i64
    ensures { Delivered (in_bytes calendar_bytes (julian_to_calendar jd1 jd2)) out.old result out.new }
{
    put_calendar(julian::julian_to_calendar(jd1, jd2), out)
}

pub fn difference(jd1: f64, jd2: f64, other1: f64, other2: f64) -> f64
    ensures { result ≡ difference (julian jd1 jd2) (julian other1 other2) }
{
    JulianDate::new(jd1, jd2) - JulianDate::new(other1, other2)
}
