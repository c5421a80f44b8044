// Milliseconds from the launch to a stamp, and to each stamp of a run.
ghost use Rattle.std.specs.Prelude.{◌≡◌};
ghost use Rattle.julian.specs.JulianDate.{julian};
ghost use Rattle.since_launch.specs.Millis.{millis_from_to};
ghost use Rattle.since_launch.specs.Run.{millis_of_run};
ghost use Rattle.c_answers.specs.Delivery.{code};
ghost use Rattle.capi.specs.MillisDelivery.{MillisDelivered};

use c_answers::refused;
use julian::JulianDate;

#[unsafe(no_mangle)]
pub extern "C" fn ct_milliseconds(from1: f64, from2: f64, jd1: f64, jd2: f64) -> i64
    ensures { result ≡ code (millis_from_to (julian from1 from2) (julian jd1 jd2)) }
{
    let from = JulianDate {
        jd1: from1,
        jd2: from2,
    };
    match since_launch::milliseconds(from, JulianDate { jd1, jd2 }) {
        Ok(millis) => millis as i64,
        Err(refusal) => refused(refusal),
    }
}

#[unsafe(no_mangle)]
pub extern "C" fn ct_milliseconds_of_run(
    from1: f64,
    from2: f64,
    jd1: &[u8],
    jd2: &[u8],
    millis: &mut [u8],
    numbers: &mut [u8],
) -> i64
    ensures { MillisDelivered (millis_of_run (julian from1 from2) jd1.now jd2.now millis.old numbers.old) result
        millis.new numbers.new }
{
    let from = JulianDate {
        jd1: from1,
        jd2: from2,
    };
    match since_launch::milliseconds_of_run(from, jd1, jd2, millis, numbers) {
        Ok(n) => n as i64,
        Err(refusal) => refused(refusal),
    }
}
