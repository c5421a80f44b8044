// The day that a run keeps from stamp to stamp, in hand: what UTC to TAI computes of a day alone. It serves the stamps whose jd1 is its midnight and whose jd2
// is from 0.0 to below 1.0; every other stamp goes to the plain conversion. The operations and their order are those of `utc_tai`, so the bits are the same.
ghost use Rattle.std.specs.Prelude.{◌≡◌, true, false, ◌≤◌, pos, nat_abs, ◌-ℤ◌, eqb};
ghost use Rattle.std.specs.Float.{binary64};
ghost use Rattle.std.specs.Float.Ieee.{of_int};
ghost use Rattle.refusals.specs.Outcome.{onward, outcome};
ghost use Rattle.julian.specs.JulianDate.{julian};
ghost use Rattle.leap_table.specs.rows.Announced.{rows_of};
ghost use Rattle.utc_scales.specs.UtcTai.{utc_to_tai, tai_to_utc};
ghost use Rattle.runs.specs.ways.Ways.{into_tai, out_of_tai, way_of};
ghost use Rattle.runs.specs.ways.Asked.{reads_day};
ghost use Rattle.runs.specs.by_day.Hand as D;

use constants::SECONDS_PER_DAY_F64;
use constants::scale_numbers::UTC;
use julian::JulianDate;
use julian::day_number::{DJMAX, DJMIN};
use leap_table::offsets::DayOffsets;
use leap_table::rows::AnnouncedRows;
use refusals::Refusal;

// The day whose midnight is the Julian date `midnight`: `top` is 1.0 where it serves, 0.0 where it was looked up and serves no stamp, and below 0.0 where it
// was not looked up; `zero` is what the midnight and its Modified Julian Date come to, `leap` and `drift` are the factors of the day's length, and `start` is
// TAI-UTC at 0h in days.
// kept: `top` and no enum: `RightHand`, `hand_of` and `serves_none` (specs/by_day/Hand), by which the contracts here go, speak of the fields.
#[derive(Clone, Copy)]
pub(crate) struct DayInHand {
    pub midnight: f64,
    pub top: f64,
    pub zero: f64,
    pub leap: f64,
    pub drift: f64,
    pub start: f64,
}

// A midnight whose day serves no stamp.
#[tactic(auto, using(floats::proofs::Cases::literals), unfolding(crate::specs::by_day::Hand::serves_none))]
fn serves_none(midnight: f64, top: f64) -> DayInHand
    ensures { result ≡ D.serves_none midnight top }
{
    DayInHand {
        midnight,
        top,
        zero: 0.0,
        leap: 0.0,
        drift: 0.0,
        start: 0.0,
    }
}

// No day.
pub(crate) fn no_day() -> DayInHand
    ensures { result ≡ D.serves_none D.minus_one D.minus_one }
{
    serves_none(-1.0, -1.0)
}

// What is kept of a day by its offsets.
fn hand_of(midnight: f64, mjd: f64, o: DayOffsets) -> DayInHand
    ensures { result ≡ D.hand_of midnight mjd o }
{
    let drift_rate = 2.0 * (o.at_12h - o.at_0h);
    let leap_amount = o.at_24h - (o.at_0h + drift_rate);
    DayInHand {
        midnight,
        top: 1.0,
        zero: JulianDate::MJD_ZERO_POINT - midnight + mjd,
        leap: (SECONDS_PER_DAY_F64 + leap_amount) / SECONDS_PER_DAY_F64,
        drift: (SECONDS_PER_DAY_F64 + drift_rate) / SECONDS_PER_DAY_F64,
        start: o.at_0h / SECONDS_PER_DAY_F64,
    }
}

// kept: as `mjd_of` in utc_scales::days, which has a `requires`, so that it is not public (a rule of the project).
fn mjd_of(day: i64) -> f64
    requires { nat_abs day ≤ 1000000000 }
    ensures { result ≡ of_int binary64 (day -ℤ pos 2400001) }
{
    (day - 2400001) as f64
}

// The day of a midnight, looked up.
// kept: beside kept_day of utc's run_texts: what is kept and the last midnight differ, and one body would take the look-up as a closure with its contract.
// kept: `match`, since both arms give a value: a day that is refused is kept too, as one that serves no stamp.
fn look_up(midnight: f64, table: &AnnouncedRows) -> DayInHand
    ensures { D.RightHand (rows_of table.now) result }
{
    let w = floats::nearest_whole(midnight);
    if midnight - w.value == -0.5 {
        if midnight >= 1.0 {
            if midnight <= DJMAX {
                return match utc_scales::day_of(w.number, table) {
                    Err(_) => serves_none(midnight, 0.0),
                    Ok((o, _)) => hand_of(midnight, mjd_of(w.number), o),
                };
            }
        }
    }
    serves_none(midnight, 0.0)
}

// The day in hand for a stamp whose first part is jd1: it stays where it has this midnight, and is looked up where the stamp before had it too.
pub(crate) fn next_day(jd1: f64, hand: DayInHand, table: &AnnouncedRows) -> DayInHand
    requires { D.RightHand (rows_of table.now) hand }
    ensures { D.RightHand (rows_of table.now) result }
{
    if jd1 == hand.midnight {
        if hand.top < 0.0 {
            return look_up(jd1, table);
        }
        return hand;
    }
    DayInHand {
        midnight: jd1,
        top: -1.0,
        zero: hand.zero,
        leap: hand.leap,
        drift: hand.drift,
        start: hand.start,
    }
}

// The fraction of the day of any midnight that jd2 lies in, as `julian::day_number` has it.
#[tactic(auto, using(crate::proofs::by_day::Days::none_found))]
fn fraction_in_day(small: f64) -> Option<f64>
    ensures { D.FindsFraction small result }
{
    let w = floats::nearest_whole(small);
    let fraction = 0.0 + (small - w.value);
    if fraction >= 0.0 {
        if fraction < 1.0 {
            if w.number == 0 {
                return Some(fraction);
            }
        }
    } else if fraction > -1.0 {
        let more = fraction + 1.0;
        if more < 1.0 {
            if w.number == 1 {
                return Some(more);
            }
        }
    }
    None
}

// The smaller part in TAI.
#[tactic(auto, unfolding(crate::specs::by_day::Hand::tai_part))]
fn tai_part(fraction: f64, h: DayInHand) -> f64
    ensures { result ≡ D.tai_part h fraction }
{
    h.zero + (fraction * h.leap * h.drift + h.start)
}

// UTC to TAI by the day in hand, where its midnight is `big`.
#[tactic(auto, using(crate::proofs::by_day::Days::none_found))]
fn tai_in_range(big: f64, small: f64, hand: DayInHand) -> Option<JulianDate>
    ensures { D.FindsTaiOf (julian big small) hand result }
{
    let sum = big + small;
    if sum >= DJMIN {
        if sum <= DJMAX {
            let fraction = fraction_in_day(small)?;
            return Some(JulianDate::new(big, tai_part(fraction, hand)));
        }
    }
    None
}

// UTC to TAI by the day in hand.
#[tactic(auto, using(crate::proofs::by_day::Days::none_found))]
pub(crate) fn quick_tai(big: f64, small: f64, hand: DayInHand) -> Option<JulianDate>
    ensures { D.FindsTai (julian big small) hand result }
{
    if hand.top > 0.0 {
        if big == hand.midnight {
            if small >= 0.0 {
                if small < hand.top {
                    return tai_in_range(big, small, hand);
                }
            }
        }
    }
    None
}

// One round of TAI to UTC by the day in hand.
#[tactic(auto, using(crate::proofs::by_day::Days::none_found))]
fn quick_round(big: f64, small: f64, guess: f64, hand: DayInHand) -> Option<f64>
    ensures { D.FindsRound big small guess hand result }
{
    let tai = quick_tai(big, guess, hand)?;
    let moved = guess + (big - tai.jd1);
    Some(moved + (small - tai.jd2))
}

// TAI to UTC by the day in hand: three rounds, each on this day.
#[tactic(auto, using(crate::proofs::by_day::Days::none_found))]
fn quick_utc(big: f64, small: f64, hand: DayInHand) -> Option<JulianDate>
    ensures { D.FindsUtc (julian big small) hand result }
{
    let one = quick_round(big, small, small, hand)?;
    let two = quick_round(big, small, one, hand)?;
    let three = quick_round(big, small, two, hand)?;
    Some(JulianDate::new(big, three))
}

// kept: the two directions apart. One body would take the quick way and the plain one as closures, each with a contract as long as these.
// UTC to TAI by the day in hand where it serves, and else by the plain conversion.
fn utc_into_tai_with(
    jd: JulianDate,
    hand: DayInHand,
    table: &AnnouncedRows,
) -> Result<JulianDate, Refusal>
    requires { D.RightHand (rows_of table.now) hand }
    ensures { outcome result ≡ utc_to_tai (rows_of table.now) jd }
{
    match quick_tai(jd.jd1, jd.jd2, hand) {
        Some(d) => Ok(d),
        None => crate::ways::utc_into_tai(jd, table),
    }
}

// TAI to UTC in the same way.
fn tai_into_utc_with(
    jd: JulianDate,
    hand: DayInHand,
    table: &AnnouncedRows,
) -> Result<JulianDate, Refusal>
    requires { D.RightHand (rows_of table.now) hand }
    ensures { outcome result ≡ tai_to_utc (rows_of table.now) jd }
{
    match quick_utc(jd.jd1, jd.jd2, hand) {
        Some(d) => Ok(d),
        None => crate::ways::tai_into_utc(jd, table),
    }
}

// UTC in another scale, through TAI.
fn out_of_utc(
    to: u32,
    jd: JulianDate,
    hand: DayInHand,
    table: &AnnouncedRows,
) -> Result<JulianDate, Refusal>
    requires { D.RightHand (rows_of table.now) hand × (eqb to 0 ≡ false) }
    ensures { outcome result ≡ onward (utc_to_tai (rows_of table.now) jd)
        (out_of_tai (rows_of table.now) to) }
{
    let tai = utc_into_tai_with(jd, hand, table)?;
    crate::ways::out_of_tai_by_formula(to, tai)
}

// Another scale in UTC, through TAI.
fn into_utc(
    from: u32,
    jd: JulianDate,
    hand: DayInHand,
    table: &AnnouncedRows,
) -> Result<JulianDate, Refusal>
    requires { D.RightHand (rows_of table.now) hand × (eqb from 0 ≡ false) }
    ensures { outcome result ≡ onward (into_tai (rows_of table.now) from jd)
        (tai_to_utc (rows_of table.now)) }
{
    let tai = crate::ways::into_tai_by_formula(from, jd)?;
    tai_into_utc_with(tai, hand, table)
}

// The date in scale `to` of a date in scale `from`, where the way reads a day: by the day in hand where it serves, and else by the plain conversion.
pub(crate) fn convert_with(
    from: u32,
    to: u32,
    jd: JulianDate,
    hand: DayInHand,
    table: &AnnouncedRows,
) -> Result<JulianDate, Refusal>
    requires { D.RightHand (rows_of table.now) hand × (reads_day from to ≡ true) }
    ensures { outcome result ≡ way_of (rows_of table.now) from to jd }
{
    if from == UTC {
        return out_of_utc(to, jd, hand, table);
    }
    into_utc(from, jd, hand, table)
}
