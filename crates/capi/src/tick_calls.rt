// A list of ticks, and a run of readings, placed between marker passes.
ghost use Rattle.std.specs.Prelude.{length};
ghost use Rattle.ticks.specs.Ticks.{placed_ticks};
ghost use Rattle.ticks.specs.places.Places.{placed_run};
ghost use Rattle.c_answers.specs.Delivery.{Delivered};
ghost use Rattle.capi.specs.PlacesDelivery.{PlacesDelivered};

use c_answers::refused;

#[unsafe(no_mangle)]
pub extern "C" fn ct_place_ticks(
    pass_ticks: &[u8],
    pass_millis: &[u8],
    ticks: &[u8],
    out: &mut [u8],
) -> i64
    ensures { Delivered (placed_ticks pass_ticks.now pass_millis.now ticks.now (length out.old))
        out.old result out.new }
{
    match ticks::place_ticks(pass_ticks, pass_millis, ticks, out) {
        Ok(n) => n as i64,
        Err(refusal) => refused(refusal),
    }
}

#[unsafe(no_mangle)]
pub extern "C" fn ct_place_readings(
    pass_millis: &[u8],
    pass_places: &[u8],
    millis: &[u8],
    places: &mut [u8],
    numbers: &mut [u8],
) -> i64
    ensures { PlacesDelivered (placed_run pass_millis.now pass_places.now millis.now places.old
        numbers.old) result places.new numbers.new }
{
    match ticks::places::place_readings(pass_millis, pass_places, millis, places, numbers) {
        Ok(n) => n as i64,
        Err(refusal) => refused(refusal),
    }
}
