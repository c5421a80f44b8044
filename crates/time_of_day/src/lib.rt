// Types, definitions and laws of the time that a text shows. The code is that of the texts, in `utc::shown`.
#![tactic(auto)]

ghost use Rattle.std.specs.Prelude.{◌≡◌};
ghost use Rattle.time_of_day.specs.TimeShown.{from_zero};
ghost use Rattle.time_of_day.specs.HalfEven.{grid_units};

// A time of day to the millisecond; in a leap second `second` is 60.
#[derive(Clone, Copy)]
pub struct TimeOfDay {
    pub hour: u32,
    pub minute: u32,
    pub second: u32,
    pub milli: u32,
}

// A time of the day itself, or the midnight that ends it.
// kept: an enum and no `Option`, since the second case is a time too, the midnight that ends the day, and the definition `shown_by` has both.
#[derive(Clone, Copy)]
pub enum TimeShown {
    At(TimeOfDay),
    NextMidnight,
}

// What is below 0 is taken as 0, which makes the cast safe with no condition: no fraction of a day has a count below 0.
// kept: a public function, whose promise is the definition `from_zero` that clauses cite; `max(0)` and a cast say it in as many words.
#[tactic(auto, unfolding(crate::specs::TimeShown::from_zero))]
pub fn from_zero(count: i64) -> u64
    ensures { result ≡ from_zero count }
{
    if count < 0 { 0 } else { count as u64 }
}

const TWO_52: f64 = 4503599627370496.0;

// The units of 2^-52 in a fraction, cut down where the fraction lies between two.
#[tactic(auto, unfolding(crate::specs::HalfEven::grid_units))]
pub fn grid_units(fraction: f64) -> u64
    ensures { result ≡ grid_units fraction }
{
    from_zero(floats::saturating_i64(fraction * TWO_52))
}
