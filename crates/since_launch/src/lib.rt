// Whole milliseconds from the launch to a stamp of the same uniform scale. For one stamp, and for each of a run.
#![tactic(auto)]

ghost use Rattle.std.specs.Prelude.{◌≡◌, ◌+◌, ◌*◌, ◌≤◌, length};
ghost use Rattle.refusals.specs.Outcome.{outcome, number_said};
ghost use Rattle.julian.specs.JulianDate.{julian};
ghost use Rattle.julian.specs.day_number.Ranges.{InDays};
ghost use Rattle.since_launch.specs.Millis.{place_of, place_in, place_at, units_of, nearest_count, count_of};
ghost use Rattle.since_launch.specs.Millis.{since_launch, millis_from_to};
ghost use Rattle.since_launch.specs.Run.{millis_call, run_lengths_refusal, stamp_millis, millis_by, millis_of_run};
ghost use Rattle.since_launch.specs.Asked.{PlaceWithin, AllPlaced, RoomForRun, MillisPut, MillisRunPut};

use julian::JulianDate;
use refusals::Refusal;

// A date's place in units of 2^-52 day: the days since day -68570, before which no date is answered, and the units since midnight.
#[derive(Clone, Copy)]
struct Place {
    days: u64,
    units: u64,
}

// A day's units of 2^-52.
const DAY_UNITS: u64 = 4503599627370496;

// Days from this to 0.
const DAYS_BEFORE_0: i64 = 68570;

// No two dates further apart than this are within 2^40 ms, whatever their fractions; it keeps the count below small.
const MOST_DAYS: u64 = 12728;

const MILLIS_PER_DAY: u64 = 86_400_000;

// 86,400,000 / 2^52 is 84375 / 2^42: a unit's milliseconds.
const UNIT_NUMERATOR: u64 = 84375;

// A product is made in parts of 26 bits.
const LOW_BITS: u64 = 67108864;

// Half a millisecond, 2^41 of 2^42.
const HALF: u64 = 2199023255552;

// 2^42 / 2^26.
const HIGH_BITS: u64 = 65536;

// 2^40.
const TOO_MANY: u64 = 1099511627776;

fn place_of(found: julian::day_number::DayNumber) -> Place
    requires { InDays found.day }
    ensures { result ≡ place_of found }
{
    Place {
        days: time_of_day::from_zero(found.day + DAYS_BEFORE_0),
        units: time_of_day::grid_units(found.fraction),
    }
}

// 6 for a rounded sum out of the range.
fn place_in(jd1: f64, jd2: f64) -> Result<Place, Refusal>
    ensures { (outcome result ≡ place_in (julian jd1 jd2)) × AllPlaced result }
{
    let found = julian::day_number::day_number_and_fraction(jd1, jd2)?;
    Ok(place_of(found))
}

// 9 for a part that is not finite, before it.
fn place_at(date: JulianDate) -> Result<Place, Refusal>
    ensures { (outcome result ≡ place_at date) × AllPlaced result }
{
    let jd = julian::finite_jd(date)?;
    place_in(jd.jd1, jd.jd2)
}

// The nearest millisecond to so many units, up to two days, a half going up: the product has up to 70 bits, and is made in two parts.
fn nearest_count(units: u64) -> u64
    requires { units ≤ 9007199254740992 }
    ensures { (result ≡ nearest_count units) × (result ≤ 172800000) }
{
    let low = units % LOW_BITS * UNIT_NUMERATOR + HALF;
    let high = units / LOW_BITS * UNIT_NUMERATOR + low / LOW_BITS;
    high / HIGH_BITS
}

// The milliseconds from one place to another. Two days are added, so that no number is below 0, and taken off again.
fn count_of(from: Place, to: Place) -> Result<u64, Refusal>
    requires { PlaceWithin from × PlaceWithin to }
    ensures { outcome result ≡ count_of (units_of from) (units_of to) }
{
    if to.days + 1 < from.days {
        return Err(Refusal::OutOfLimit);
    }
    let days = to.days + 1 - from.days;
    if days > MOST_DAYS {
        return Err(Refusal::OutOfLimit);
    }
    let count = days * MILLIS_PER_DAY + nearest_count(to.units + DAY_UNITS - from.units);
    if count < 2 * MILLIS_PER_DAY {
        return Err(Refusal::OutOfLimit);
    }
    let millis = count - 2 * MILLIS_PER_DAY;
    if millis >= TOO_MANY {
        return Err(Refusal::OutOfLimit);
    }
    Ok(millis)
}

// The milliseconds from a launch whose place is known.
fn since(launch: Place, to: JulianDate) -> Result<u64, Refusal>
    requires { PlaceWithin launch }
    ensures { outcome result ≡ since_launch launch to }
{
    let place = place_at(to)?;
    count_of(launch, place)
}

// The whole milliseconds from one date to another of the same uniform scale, to the nearest, a half going up. Refusals in order: 9 a part of either that is not
// finite, 6 a rounded sum of either out of the range, 18 a result that is not 0 to 2^40 - 1.
pub fn milliseconds(from: JulianDate, to: JulianDate) -> Result<u64, Refusal>
    ensures { outcome result ≡ millis_from_to from to }
{
    let stamp = julian::finite_jd(to)?;
    let launch = place_at(from)?;
    since(launch, stamp)
}

// Writes the milliseconds of the stamp at place i, and says its number.
// kept: `match`, since the refusal becomes the byte of `numbers`, which C reads.
fn put_stamp(launch: Place, jd1s: &[u8], jd2s: &[u8], i: usize, out: &mut [u8]) -> u8
    requires { PlaceWithin launch × (8 * i + 8 ≤ length out.old) }
    ensures { MillisPut (stamp_millis launch jd1s.now jd2s.now i) i out.old result out.new }
{
    match since(launch, julian::stamp_lists::stamp_of(jd1s, jd2s, i)) {
        Ok(millis) => {
            numerals::little_endian::put_nth_u64(out, i, millis);
            0
        }
        Err(refusal) => refusal.byte(),
    }
}

// Writes the milliseconds of n stamps, and says how many are refused.
fn put_all(
    launch: Place,
    jd1s: &[u8],
    jd2s: &[u8],
    n: usize,
    out: &mut [u8],
    numbers: &mut [u8],
) -> usize
    requires { PlaceWithin launch × RoomForRun n jd1s.now out.old numbers.old }
    ensures { MillisRunPut (stamp_millis launch jd1s.now jd2s.now) n out.old numbers.old result out.new
        numbers.new }
{
    let mut refused = 0;
    for i in 0..n {
        let number = put_stamp(launch, jd1s, jd2s, i, out);
        numbers[i] = number;
        if number != 0 {
            refused += 1;
        }
    }
    refused
}

// Whether the lengths go together.
fn judge_lengths(size1: usize, size2: usize, room1: usize, room2: usize) -> Result<(), Refusal>
    ensures { number_said result ≡ run_lengths_refusal size1 size2 room1 room2 }
{
    if size1 % 8 != 0 {
        return Err(Refusal::LengthWrong);
    }
    if size2 % 8 != 0 {
        return Err(Refusal::LengthWrong);
    }
    if size1 != size2 {
        return Err(Refusal::SizesDiffer);
    }
    if room1 < size1 {
        return Err(Refusal::NoRoom);
    }
    if room2 < size1 / 8 {
        return Err(Refusal::NoRoom);
    }
    Ok(())
}

// A run from a launch whose place is known.
fn run_from(
    launch: Place,
    jd1s: &[u8],
    jd2s: &[u8],
    out: &mut [u8],
    numbers: &mut [u8],
) -> Result<usize, Refusal>
    requires { PlaceWithin launch }
    ensures { millis_call (outcome result) out.new numbers.new ≡ millis_by launch jd1s.now jd2s.now
        out.old numbers.old }
{
    judge_lengths(jd1s.len(), jd2s.len(), out.len(), numbers.len())?;
    let n = jd1s.len() / 8;
    Ok(put_all(launch, jd1s, jd2s, n, out, numbers))
}

// The milliseconds from the launch to each stamp of a run: stamp i is bytes 8 i to 8 i + 7 of both lists of parts; its milliseconds go into the same bytes of
// `out`, the lowest first, 0 or the number of its refusal into byte i of `numbers`, and the number of refused stamps is the answer. The bytes of a refused
// stamp stay, and all behind the last. Refusals of the whole call in order, before a byte is written: 9 and 6 of the launch, 14 a length of parts that is no
// multiple of eight, 12 another number of second parts than of first, 11 too few places.
pub fn milliseconds_of_run(
    from: JulianDate,
    jd1s: &[u8],
    jd2s: &[u8],
    out: &mut [u8],
    numbers: &mut [u8],
) -> Result<usize, Refusal>
    ensures { millis_call (outcome result) out.new numbers.new ≡ millis_of_run from jd1s.now jd2s.now
        out.old numbers.old }
{
    let launch = place_at(from)?;
    run_from(launch, jd1s, jd2s, out, numbers)
}
