// What the four share: the part of a date that they change, and TAI-UTC of its day. On equal sizes jd2 is changed.
ghost use Rattle.std.specs.Prelude.{◌≡◌, ◌≤◌, pos, nat_abs, ◌-ℤ◌};
ghost use Rattle.std.specs.Float.{binary64};
ghost use Rattle.std.specs.Float.Ieee.{of_int};
ghost use Rattle.refusals.specs.Outcome.{outcome};
ghost use Rattle.calendar.specs.Gregorian.{gregorian_date};
ghost use Rattle.leap_table.specs.rows.Announced.{rows_of};
ghost use Rattle.leap_table.specs.offsets.Rule.{with_rule};
ghost use Rattle.utc_scales.specs.days.LargerPart.{first_is_kept, kept_parts, put_beside};
ghost use Rattle.utc_scales.specs.days.Dates.{offset_at0h};
ghost use Rattle.utc_scales.specs.days.DateRule.{rule_on};

use julian::JulianDate;
use leap_table::offsets::SecondsByRule;
use leap_table::rows::AnnouncedRows;

// A date by its larger part in size, and whether that is jd1.
// kept: beside `split` and `put_back` of julian's smaller_part: on equal sizes those change jd1, these jd2; one body would take the comparison as a closure.
#[derive(Clone, Copy)]
pub struct Parts {
    pub larger: f64,
    pub smaller: f64,
    pub first: bool,
}

// Whether jd1 counts as the larger part.
#[tactic(auto, unfolding(crate::specs::days::LargerPart::first_is_kept))]
fn first_is_kept(jd: JulianDate) -> bool
    ensures { result ≡ first_is_kept jd }
{
    floats::at_least_in_size(jd.jd1, jd.jd2)
}

#[tactic(auto, unfolding(crate::specs::days::LargerPart::kept_parts))]
pub(crate) fn kept_parts(jd: JulianDate) -> Parts
    ensures { result ≡ kept_parts jd }
{
    if first_is_kept(jd) {
        Parts {
            larger: jd.jd1,
            smaller: jd.jd2,
            first: true,
        }
    } else {
        Parts {
            larger: jd.jd2,
            smaller: jd.jd1,
            first: false,
        }
    }
}

// The larger part in its place, and x for the smaller one.
#[tactic(auto, unfolding(crate::specs::days::LargerPart::put_beside))]
pub(crate) fn put_beside(p: Parts, x: f64) -> JulianDate
    ensures { result ≡ put_beside p x }
{
    if p.first {
        JulianDate {
            jd1: p.larger,
            jd2: x,
        }
    } else {
        JulianDate {
            jd1: x,
            jd2: p.larger,
        }
    }
}

// TAI-UTC at 0h of the date of a day number, and its rule.
pub fn offset_at_0h(day: i64, table: &AnnouncedRows) -> SecondsByRule
    ensures { outcome result ≡ with_rule (offset_at0h (rows_of table.now) (gregorian_date day))
        (rule_on (rows_of table.now) (gregorian_date day)) }
{
    let t = calendar::gregorian_date(day);
    leap_table::offsets::offset_at_0h_by_rows(t.year, t.month as i32, t.day as i32, table)
}

// The Modified Julian Date at 0h: the Rust's `calendar_to_julian` of the date gives the same, by the calendar's inverse law.
pub(crate) fn mjd_of(day: i64) -> f64
    requires { nat_abs day ≤ 1000000000 }
    ensures { result ≡ of_int binary64 (day -ℤ pos 2400001) }
{
    (day - 2400001) as f64
}
