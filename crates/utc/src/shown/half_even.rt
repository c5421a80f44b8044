// The time of day that text shows with halves of a millisecond to the even one, decided on whole numbers where the fraction and the day allow it.
ghost use Rattle.std.specs.Prelude.{◌≡◌, ◌*◌, ◌≤◌, ◌<◌, false};
ghost use Rattle.time_of_day.specs.HalfEven.{nearest_even, even, grid_units, worth as worth·of, day_is_whole, twice, of_halves, float_count, in_whole};
ghost use Rattle.time_of_day.specs.HalfEven.{even_count};

const TWO_52: f64 = 4503599627370496.0;

// A day's units of 2^-52.
const UNITS: u64 = 4503599627370496;

// A product is made in halves of 26 bits.
const HALF_BITS: u64 = 67108864;

// Whether a float is worth a whole number below 2^52.
#[tactic(auto, unfolding(time_of_day::specs::HalfEven::worth))]
fn worth(n: u64, x: f64) -> bool
    ensures { result ≡ worth·of n x }
{
    if n < UNITS {
        return n as f64 == x;
    }
    false
}

#[tactic(auto, unfolding(time_of_day::specs::HalfEven::day_is_whole))]
fn whole_seconds(leap: f64) -> bool
    ensures { result ≡ day_is_whole leap }
{
    if leap == 0.0 {
        return true;
    }
    floats::fabs(leap) == 1.0
}

// The nearest whole number, and of two the even one.
#[tactic(auto, using(crate::proofs::Found::halves))]
fn nearest_even(whole: u64, rest: u64) -> u64
    requires { whole ≤ 86401000 }
    ensures { result ≡ nearest_even whole rest 4503599627370496 }
{
    if rest == UNITS / 2 {
        return whole + whole % 2;
    }
    if rest < UNITS / 2 { whole } else { whole + 1 }
}

// The milliseconds of so many units: the product has up to 79 bits, and is made in two parts.
fn even_millis(units: u64, day: u64) -> u64
    requires { (units < 4503599627370496) × (day ≤ 86401000) }
    ensures { result ≡ even false (units * day) 4503599627370496 }
{
    let low = units % HALF_BITS * day;
    let high = units / HALF_BITS * day + low / HALF_BITS;
    nearest_even(
        high / HALF_BITS,
        high % HALF_BITS * HALF_BITS + low % HALF_BITS,
    )
}

// Twice the float that document 01's call rounds.
#[tactic(auto, unfolding(time_of_day::specs::HalfEven::twice))]
fn twice_millis(fraction: f64, leap: f64) -> f64
    ensures { result ≡ twice fraction leap }
{
    2.0 * (1000.0 * super::seconds(fraction, leap))
}

// The nearest millisecond of so many halves, which may not be all.
#[tactic(auto, using(crate::proofs::Found::halves))]
fn of_halves(halves: u64, all: bool) -> u64
    ensures { result ≡ of_halves halves all }
{
    let whole = halves / 2;
    if halves % 2 == 0 {
        return whole;
    }
    if all { whole + whole % 2 } else { whole + 1 }
}

fn float_count(fraction: f64, leap: f64) -> u64
    ensures { result ≡ float_count fraction leap }
{
    let product = twice_millis(fraction, leap);
    let halves = time_of_day::from_zero(floats::saturating_i64(product));
    of_halves(halves, worth(halves, product))
}

// Whether whole numbers decide: the fraction is its units, and the day has whole seconds.
fn in_whole(units: u64, fraction: f64, leap: f64) -> bool
    requires { units ≡ grid_units fraction }
    ensures { result ≡ in_whole fraction leap }
{
    if worth(units, fraction * TWO_52) {
        return whole_seconds(leap);
    }
    false
}

pub(crate) fn even_count(fraction: f64, leap: f64) -> u64
    ensures { result ≡ even_count fraction leap }
{
    let units = time_of_day::grid_units(fraction);
    if in_whole(units, fraction, leap) {
        even_millis(units, super::day_end(leap))
    } else {
        float_count(fraction, leap)
    }
}
