// The order of two dates.
ghost use Rattle.std.specs.Prelude.{◌≡◌};
ghost use Rattle.julian.specs.JulianDate.{julian};
ghost use Rattle.julian.specs.order.Order.{comparison};
ghost use Rattle.c_answers.specs.Delivery.{code};
ghost use Rattle.capi.specs.OrderNumber.{numbered};

#[unsafe(no_mangle)]
pub extern "C" fn ct_compare(jd1: f64, jd2: f64, other1: f64, other2: f64) -> i64
    ensures { result ≡ code (numbered (comparison (julian jd1 jd2) (julian other1 other2))) }
{
    capi::order_calls::ct_compare(jd1, jd2, other1, other2)
}
