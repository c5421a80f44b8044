// The order of two dates.
ghost use Rattle.std.specs.Prelude.{◌≡◌};
ghost use Rattle.julian.specs.JulianDate.{julian};
ghost use Rattle.julian.specs.order.Order.{comparison};
ghost use Rattle.c_answers.specs.Delivery.{code};
ghost use Rattle.capi.specs.OrderNumber.{numbered};

use c_answers::refused;
use julian::JulianDate;
use std::cmp::Ordering;

#[unsafe(no_mangle)]
pub extern "C" fn ct_compare(jd1: f64, jd2: f64, other1: f64, other2: f64) -> i64
    ensures { result ≡ code (numbered (comparison (julian jd1 jd2) (julian other1 other2))) }
{
    match julian::order::compare(JulianDate::new(jd1, jd2), JulianDate::new(other1, other2)) {
        Ok(Ordering::Less) => 0,
        Ok(Ordering::Equal) => 1,
        Ok(Ordering::Greater) => 2,
        Err(refusal) => refused(refusal),
    }
}
