// TAI-UTC of the date of a day number.
ghost use Rattle.std.specs.Prelude.{◌≡◌};
ghost use Rattle.refusals.specs.Outcome.{outcome};
ghost use Rattle.calendar.specs.Gregorian.{gregorian_date};
ghost use Rattle.leap_table.specs.rows.Announced.{rows_of};
ghost use Rattle.utc_scales.specs.Known.{read_on, RightKnown};

use leap_table::offsets::{DayByRule, DayOffsets, Rule};
use leap_table::rows::AnnouncedRows;

// The offsets of a day and its rule, looked up.
#[derive(Clone, Copy)]
pub(crate) struct KnownDay {
    pub day: i64,
    pub offsets: DayOffsets,
    pub rule: Rule,
}

// kept: no plainer: two lines, as days::offset_at_0h has them, the date of a day and a call of leap_table, but another call.
// At 0h, at 12h and at 24h, and the rule of the day.
pub fn day_of(day: i64, table: &AnnouncedRows) -> DayByRule
    ensures { outcome result ≡ read_on (rows_of table.now) (gregorian_date day) }
{
    let t = calendar::gregorian_date(day);
    leap_table::offsets::day_offsets_by_rows(t.year, t.month as i32, t.day as i32, table)
}

// The same, with no look-up where the day is the known one.
pub(crate) fn day_with(day: i64, known: Option<KnownDay>, table: &AnnouncedRows) -> DayByRule
    requires { RightKnown (rows_of table.now) known }
    ensures { outcome result ≡ read_on (rows_of table.now) (gregorian_date day) }
{
    if let Some(k) = known {
        if day == k.day {
            let offsets = k.offsets;
            let rule = k.rule;
            return Ok((offsets, rule));
        }
    }
    day_of(day, table)
}
