// The time of day that a text shows, to the millisecond: where 23:59:60 and the next midnight are decided. For the texts' own fractions and leaps, which are
// finite: no other crate can call it.
ghost use Rattle.std.specs.Prelude.{◌≡◌, ◌≤◌};
ghost use Rattle.floats.specs.Whole.{away};
ghost use Rattle.time_of_day.specs.Milliseconds.{whole_leap, fraction_seconds, millis_of};
ghost use Rattle.time_of_day.specs.TimeShown.{minute_of, time_of, day_end, count_by, shown_by};
ghost use Rattle.utc.specs.iso_texts.Named.{form_named};

mod half_even;

use crate::iso_texts::NamedForm;
pub(crate) use half_even::even_count;
use time_of_day::{TimeOfDay, TimeShown};

// The leap that counts for the day's length: only one of more than half a second in size.
pub(crate) fn whole_leap(leap: f64) -> f64
    ensures { result ≡ whole_leap leap }
{
    if floats::fabs(leap) > 0.5 { leap } else { 0.0 }
}

// The seconds of the day, in the Rust's order of operations.
#[tactic(auto, unfolding(time_of_day::specs::Milliseconds::fraction_seconds))]
fn seconds(fraction: f64, leap: f64) -> f64
    ensures { result ≡ fraction_seconds fraction leap }
{
    86400.0 * (fraction + fraction * leap / 86400.0)
}

// Rust's milliseconds, for every two floats.
#[tactic(auto, unfolding(time_of_day::specs::Milliseconds::millis_of))]
fn milliseconds(fraction: f64, leap: f64) -> i64
    ensures { result ≡ millis_of away fraction leap }
{
    floats::saturating_i64(floats::round(1000.0 * seconds(fraction, leap)))
}

// The same as a count.
#[tactic(auto, unfolding(time_of_day::specs::TimeShown::count_by))]
pub(crate) fn millis_shown(fraction: f64, leap: f64) -> u64
    ensures { result ≡ count_by away fraction leap }
{
    time_of_day::from_zero(milliseconds(fraction, leap))
}

// The milliseconds at which the next day begins. The Rust has no case for a leap below 0, which only announced rows give.
#[tactic(auto, unfolding(time_of_day::specs::TimeShown::day_end))]
pub(crate) fn day_end(leap: f64) -> u64
    ensures { (result ≡ day_end leap) × (result ≤ 86401000) }
{
    if leap > 0.0 {
        return 86_401_000;
    }
    if leap < 0.0 {
        return 86_399_000;
    }
    86_400_000
}

// A leap second belongs to the day's last minute, which then runs to 61 s.
pub(crate) fn minute_of_day(millis: u32) -> u32
    ensures { result ≡ minute_of millis }
{
    let minute = millis / 60000;
    if minute < 1439 { minute } else { 1439 }
}

#[tactic(auto, unfolding(time_of_day::specs::TimeShown::time_of))]
fn time_of(millis: u32) -> TimeOfDay
    ensures { result ≡ time_of millis }
{
    let minute = minute_of_day(millis);
    let rest = millis - minute * 60000;
    TimeOfDay {
        hour: minute / 60,
        minute: minute % 60,
        second: rest / 1000,
        milli: rest % 1000,
    }
}

// The milliseconds of a fraction of a day with the leap that counts, by the form of text.
#[tactic(auto, unfolding(crate::specs::iso_texts::Named::form_named))]
pub(crate) fn count_of(textForm: NamedForm, fraction: f64, leap: f64) -> u64
    ensures { result ≡ (form_named textForm).count fraction leap }
{
    match textForm {
        NamedForm::Standard | NamedForm::Expanded => millis_shown(fraction, leap),
        NamedForm::HalfEven => even_count(fraction, leap),
    }
}

// The time of day that a text shows.
pub(crate) fn time_shown(textForm: NamedForm, fraction: f64, leap: f64) -> TimeShown
    ensures { result ≡ shown_by (form_named textForm).count fraction leap }
{
    let day_leap = whole_leap(leap);
    let count = count_of(textForm, fraction, day_leap);
    if count < day_end(day_leap) {
        TimeShown::At(time_of(count as u32))
    } else {
        TimeShown::NextMidnight
    }
}
