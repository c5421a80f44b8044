// What an analyst must see of three lined up runs: when each begins and ends, what is left out, how far the table reaches, and what to look at.
// kept: parts and numbers in three slices, as ct_line_look and ct_line_summary lend them. Ends and counts come from C in one slice of three records, which capi
// takes apart (`run_at`); here they stand one by one, as `look_of` and `summary_text` of the contracts name them. `known` is 0 for none and the looks are bits
// of one number, as C has them (ct_line_look).
ghost use Rattle.std.specs.Prelude.{◌≡◌, ◌+◌, ◌-◌, ◌<◌, ◌≤◌, ◌&&◌, ◌||◌, length, pos, if◌then◌else◌, nat_eq};
ghost use Rattle.std.specs.Float.Ieee.{lt};
ghost use Rattle.refusals.specs.Outcome.{answer, onward, outcome, seen};
ghost use Rattle.calendar.specs.Gregorian.{gregorian_date};
ghost use Rattle.floats.specs.Whole.{nought};
ghost use Rattle.julian.specs.JulianDate.{rounded_sum};
ghost use Rattle.julian.specs.Calendar.{julian_to_calendar};
ghost use Rattle.julian.specs.day_number.Answer.{day_number_and_fraction};
ghost use Rattle.julian.specs.stamp_lists.Stamps.{stamp_of};
ghost use Rattle.leap_table.specs.rows.Announced.{rows_of, table_of};
ghost use Rattle.utc_scales.specs.UtcTai.{tai_to_utc};
ghost use Rattle.utc.specs.iso_texts.Expanded.{iso_text_expanded};
ghost use Rattle.utc.specs.iso_texts.TextCall.{TextCall};
ghost use Rattle.since_launch.specs.Millis.{millis_from_to};
ghost use Rattle.line_listing.specs.lines.StampLine.{stamps};
ghost use Rattle.line_listing.specs.head.Asked.{PlacedIn};
ghost use Rattle.line_listing.specs.summary.Seen.{one_more, seen_in, ends_of};
ghost use Rattle.line_listing.specs.summary.Known.{lent_rows, last_month_of, first_day_of, known_by_rows, known_until};
ghost use Rattle.line_listing.specs.summary.Look as L;
ghost use Rattle.line_listing.specs.summary.Summary as S;
ghost use Rattle.line_listing.specs.summary.Asked.{SeenAll, RunsOf, InRuns, left_out_of, look_by, runs_by};

use crate::head::{LEFT_OUT, RunEnd, place_count, smaller};
use crate::lines::number_at;
use julian::JulianDate;
use leap_table::rows::AnnouncedRows;
use numerals::place::place_bytes;
use refusals::Refusal;
use scales::{TAI, UTC};

// The day until which the fixed table is known, a Modified Julian Date, 2026-06-28: when the IERS list against which its rows were checked expires. A new row
// of the IERS changes this number.
pub const KNOWN_UNTIL: u32 = 61219;

// The last day that a stamp can have: Julian Day 1,000,000,000.
const LAST_DAY: usize = 997_599_999;

// The Julian Day of Modified Julian Date 0.
const MJD_0: u64 = 2400001;

// Milliseconds.
const TOLERANCE: u64 = 500;

// The most bytes of a summary.
const SUMMARY_BYTES: usize = 832;

// How many stamps of a run have a number, and the index in the run of the first and of the last of them.
#[derive(Clone, Copy)]
struct Seen {
    many: usize,
    first: usize,
    last: usize,
}

// The first and the last ordered stamp of a run, where it has any.
// kept: a flag and no `Option`, since the theorems `RunEnds` and `LaterRun` speak of the three fields.
#[derive(Clone, Copy)]
struct Ends {
    any: bool,
    first: JulianDate,
    last: JulianDate,
}

// With one stamp more, whose number this is, at index i.
#[tactic(auto, unfolding(crate::specs::summary::Seen::one_more))]
fn seen_at(s: Seen, number: u8, wanted: u8, i: usize) -> Seen
    requires { s.many < 18446744073709551615 }
    ensures { result ≡ (if nat_eq number wanted then one_more s i else s) }
{
    if number != wanted {
        return s;
    }
    Seen {
        many: s.many + 1,
        first: if s.many == 0 { i } else { s.first },
        last: i,
    }
}

// Of the n stamps from `from` on those that have a number.
fn seen_in(numbers: &[u8], wanted: u8, from: usize, n: usize) -> Seen
    requires { from + n < 18446744073709551616 }
    ensures { SeenAll wanted numbers.now from n result }
{
    let mut s = Seen {
        many: 0,
        first: 0,
        last: 0,
    };
    for i in 0..n {
        s = seen_at(s, number_at(numbers, from + i), wanted, i);
    }
    s
}

// The first and the last ordered of the n stamps from `from` on.
#[tactic(auto, unfolding(crate::specs::summary::Seen::ends_of))]
fn ends_of(jd1s: &[u8], jd2s: &[u8], numbers: &[u8], from: usize, n: usize) -> Ends
    requires { from + n < 18446744073709551616 }
    ensures { result ≡ ends_of jd1s.now jd2s.now numbers.now from n }
{
    let s = seen_in(numbers, 0, from, n);
    let any = s.many != 0;
    let first = julian::stamp_lists::stamp_of(jd1s, jd2s, from + s.first);
    let last = julian::stamp_lists::stamp_of(jd1s, jd2s, from + s.last);
    Ends { any, first, last }
}

// The month in which the last row of a table begins.
#[tactic(auto, unfolding(crate::specs::summary::Known::last_month_of))]
fn last_month(table: AnnouncedRows) -> u32
    ensures { (result ≡ last_month_of (rows_of table)) × (result ≤ 2147483647) }
{
    let last = leap_table::offsets::walk_rows::row_count(table).saturating_sub(1);
    let month = leap_table::offsets::walk_rows::row_start(table, last);
    smaller(month as usize, 2147483647) as u32
}

// The first day of a month, as a Modified Julian Date.
#[tactic(auto, unfolding(crate::specs::summary::Known::first_day_of, crate::specs::summary::Known::day_by, refusals::specs::Outcome::outcome))]
fn first_day_of(m: u32) -> u64
    requires { m ≤ 2147483653 }
    ensures { result ≡ first_day_of m }
{
    let year = (m / 12) as i32;
    let month = (m % 12 + 1) as i32;
    calendar::modified_julian_day(year, month, 1).map_or(0, time_of_day::from_zero)
}

// How many rows of a table are lent.
fn lent_rows(table: AnnouncedRows) -> usize
    ensures { result ≡ lent_rows (rows_of table) }
{
    leap_table::offsets::walk_rows::row_count(table).saturating_sub(
        leap_table::rows::FIXED_ROWS as usize,
    )
}

// The day until which a table is known by its rows.
#[tactic(auto, unfolding(crate::specs::summary::Known::known_by_rows))]
fn known_by_rows(table: AnnouncedRows) -> u64
    ensures { result ≡ known_by_rows (rows_of table) }
{
    if lent_rows(table) == 0 {
        return KNOWN_UNTIL as u64;
    }
    first_day_of(last_month(table) + 6).saturating_sub(1)
}

// The same, or what the table's text told.
#[tactic(auto, unfolding(crate::specs::summary::Known::known_until))]
fn known_until(table: AnnouncedRows, known: u32) -> u32
    ensures { (result ≡ known_until (rows_of table) known) × (result ≤ 997599999) }
{
    if known == 0 {
        return smaller(known_by_rows(table) as usize, LAST_DAY) as u32;
    }
    smaller(known as usize, LAST_DAY) as u32
}

fn utc_of(tai: JulianDate, table: AnnouncedRows) -> Result<UTC, Refusal>
    ensures { seen (λ s. s.0) result ≡ tai_to_utc (rows_of table) tai }
{
    utc_scales::utc_tai::tai_to_utc_by_rows(TAI(tai), &table)
}

// Whether the UTC day of a TAI is later than a day.
// kept: no plainer: by `map_or_else` each arm would be a closure, one with an argument that it drops.
#[tactic(auto, unfolding(crate::specs::summary::Look::is_after, crate::specs::summary::Look::after_by, refusals::specs::Outcome::seen))]
fn is_after(table: AnnouncedRows, day: u32, tai: JulianDate) -> bool
    requires { day ≤ 997599999 }
    ensures { result ≡ L.is_after (rows_of table) day tai }
{
    match utc_of(tai, table) {
        Err(_) => is_positive(tai),
        Ok(utc) => is_later(utc.0, day),
    }
}

// Whether the rounded sum is above 0.0: a TAI that has no UTC then lies behind all days, and else before them.
fn is_positive(tai: JulianDate) -> bool
    ensures { result ≡ lt nought (rounded_sum tai) }
{
    tai.jd1 + tai.jd2 > 0.0
}

// The same of a UTC.
#[tactic(auto, unfolding(crate::specs::summary::Look::day_after, refusals::specs::Outcome::outcome))]
fn is_later(utc: JulianDate, day: u32) -> bool
    requires { day ≤ 997599999 }
    ensures { result ≡ L.day_after day (day_number_and_fraction utc.jd1 utc.jd2) }
{
    let last = day as u64 + MJD_0;
    let number = julian::day_number::day_number_and_fraction(utc.jd1, utc.jd2);
    number.is_ok_and(|found| last < time_of_day::from_zero(found.day))
}

// Whether the last ordered stamp of a run is.
#[tactic(auto, unfolding(crate::specs::summary::Look::last_after))]
fn last_after(run: Ends, table: AnnouncedRows, day: u32) -> bool
    requires { day ≤ 997599999 }
    ensures { result ≡ L.last_after (rows_of table) day run }
{
    run.any && is_after(table, day, run.last)
}

// kept: any_apart has the same shape, but asks three pairs, not three runs.
// Whether that of one of three runs is.
#[tactic(auto, unfolding(crate::specs::summary::Look::any_after))]
fn any_after(gps: Ends, tai: Ends, utc: Ends, table: AnnouncedRows, day: u32) -> bool
    requires { day ≤ 997599999 }
    ensures { result ≡ L.any_after (rows_of table) day gps tai utc }
{
    last_after(gps, table, day) || last_after(tai, table, day) || last_after(utc, table, day)
}

#[tactic(auto, unfolding(crate::specs::summary::Look::both_near))]
fn both_near(x: u64, y: u64, v: u64) -> bool
    ensures { result ≡ L.both_near x y v }
{
    v != 0 && x.abs_diff(v) <= TOLERANCE && y.abs_diff(v) <= TOLERANCE
}

#[tactic(auto, unfolding(crate::specs::summary::Look::once_or_twice))]
fn once_or_twice(x: u64, y: u64, d: u64) -> bool
    requires { d < 9223372036854775808 }
    ensures { result ≡ L.once_or_twice x y d }
{
    both_near(x, y, d) || both_near(x, y, 2 * d)
}

// Whether two runs that begin x and end y milliseconds apart are so by a difference of two scales, with s seconds of TAI-UTC.
#[tactic(auto, unfolding(crate::specs::summary::Look::as_scales))]
fn as_scales(x: u64, y: u64, s: u32) -> bool
    ensures { result ≡ L.as_scales x y s }
{
    once_or_twice(x, y, 18000)
        || once_or_twice(x, y, 19000)
        || once_or_twice(x, y, 37000)
        || once_or_twice(x, y, 1000 * s as u64)
        || once_or_twice(x, y, 1000 * (s as u64).abs_diff(19))
}

// TAI-UTC in whole seconds in the month of a UTC.
#[tactic(auto, unfolding(crate::specs::summary::Look::seconds_by, refusals::specs::Outcome::outcome))]
fn seconds_of(utc: JulianDate, table: AnnouncedRows) -> u32
    ensures { result ≡ L.seconds_by (rows_of table) (julian_to_calendar utc.jd1 utc.jd2) }
{
    let Ok(fields) = julian::julian_to_calendar(utc.jd1, utc.jd2) else {
        return 0;
    };
    let date = fields.date;
    leap_table::offsets::whole_seconds_by_rows(date.year, date.month, &table)
}

// The same of a TAI.
#[tactic(auto, using(refusals::proofs::Handed::handed_by), unfolding(crate::specs::summary::Look::seconds_on_day, crate::specs::summary::Look::seconds_by))]
fn seconds_at(tai: JulianDate, table: AnnouncedRows) -> u32
    ensures { result ≡ L.seconds_on_day (rows_of table) tai }
{
    utc_of(tai, table).map_or(0, |utc| seconds_of(utc.0, table))
}

// Whether the ends are so far apart; a refused time is none.
#[tactic(auto, unfolding(crate::specs::summary::Look::apart_by, refusals::specs::Outcome::outcome))]
fn apart_by(first: Result<u64, Refusal>, last: Result<u64, Refusal>, s: u32) -> bool
    ensures { result ≡ L.apart_by s (outcome first) (outcome last) }
{
    match (first, last) {
        (Ok(x), Ok(y)) => as_scales(x, y, s),
        _ => false,
    }
}

// Whether run b begins and ends later than run a by a difference of two scales.
#[tactic(auto, unfolding(crate::specs::summary::Look::run_later))]
fn later(a: Ends, b: Ends, table: AnnouncedRows) -> bool
    ensures { result ≡ L.run_later (rows_of table) a b }
{
    if !a.any || !b.any {
        return false;
    }
    let first = since_launch::milliseconds(a.first, b.first);
    let last = since_launch::milliseconds(a.last, b.last);
    apart_by(first, last, seconds_at(a.first, table))
}

#[tactic(auto, unfolding(crate::specs::summary::Look::runs_apart))]
fn apart(a: Ends, b: Ends, table: AnnouncedRows) -> bool
    ensures { result ≡ L.runs_apart (rows_of table) a b }
{
    later(a, b, table) || later(b, a, table)
}

#[tactic(auto, unfolding(crate::specs::summary::Look::any_apart))]
fn any_apart(gps: Ends, tai: Ends, utc: Ends, table: AnnouncedRows) -> bool
    ensures { result ≡ L.any_apart (rows_of table) gps tai utc }
{
    apart(gps, tai, table) || apart(gps, utc, table) || apart(tai, utc, table)
}

#[tactic(auto, unfolding(crate::specs::summary::Look::is_empty))]
fn is_empty(run: RunEnd, n: usize) -> bool
    ensures { result ≡ L.is_empty run n }
{
    run.named && n == 0
}

// Whether a named run of three of so many stamps has none.
fn any_empty(gps: RunEnd, tai: RunEnd, utc: RunEnd, a: usize, b: usize, c: usize) -> bool
    ensures { result ≡ (L.is_empty gps a || (L.is_empty tai b || L.is_empty utc c)) }
{
    is_empty(gps, a) || is_empty(tai, b) || is_empty(utc, c)
}

fn bit(set: bool, value: u32) -> u32
    ensures { (result ≡ (if set then value else 0)) × (result ≤ value) }
{
    if set { value } else { 0 }
}

#[tactic(auto, unfolding(crate::specs::summary::Look::bits))]
fn bits(a: bool, b: bool, c: bool, d: bool) -> u32
    ensures { (result ≡ L.bits a b c d) × (result < 16) }
{
    bit(a, 1) + bit(b, 2) + bit(c, 4) + bit(d, 8)
}

// Where the runs end: the first, the second and the third.
#[derive(Clone, Copy)]
struct Runs {
    end1: usize,
    end2: usize,
    end3: usize,
}

// They end at the latest where the numbers end.
fn runs_of(first: usize, second: usize, n: usize) -> Runs
    ensures { RunsOf first second n result }
{
    let end1 = smaller(first, n);
    let end2 = end1 + smaller(second, n - end1);
    Runs {
        end1,
        end2,
        end3: n,
    }
}

// Whether a stamp is left out.
fn left_out(numbers: &[u8]) -> bool
    ensures { result ≡ left_out_of numbers.now }
{
    let s = seen_in(numbers, LEFT_OUT, 0, numbers.len());
    s.many != 0
}

// What to look at, by the rows of a table that is tested elsewhere.
fn look_of(
    jd1s: &[u8],
    jd2s: &[u8],
    numbers: &[u8],
    runs: Runs,
    gps: RunEnd,
    tai: RunEnd,
    utc: RunEnd,
    table: AnnouncedRows,
    known: u32,
) -> u32
    requires { InRuns runs }
    ensures { (result ≡ look_by (rows_of table) known gps tai utc jd1s.now jd2s.now numbers.now runs) × (result < 16) }
{
    let out = left_out(numbers);
    let empty = any_empty(
        gps,
        tai,
        utc,
        runs.end1,
        runs.end2 - runs.end1,
        runs.end3 - runs.end2,
    );
    let gps_ends = ends_of(jd1s, jd2s, numbers, 0, runs.end1);
    let tai_ends = ends_of(jd1s, jd2s, numbers, runs.end1, runs.end2 - runs.end1);
    let utc_ends = ends_of(jd1s, jd2s, numbers, runs.end2, runs.end3 - runs.end2);
    let after = any_after(
        gps_ends,
        tai_ends,
        utc_ends,
        table,
        known_until(table, known),
    );
    let apart = any_apart(gps_ends, tai_ends, utc_ends, table);
    bits(out, empty, after, apart)
}

// What an analyst must look at in three lined up runs, a number of bits: 1 a stamp is left out; 2 a named run has no stamp; 4 the UTC day of a run's last
// ordered stamp is later than the day until which the table is known; 8 two runs begin and end apart by what two scales differ by, or by twice that, within
// half a second: their names may be exchanged. `known` is the expiry that the table's text told, 0 where it told none. Refusals: 20 to 22 the table.
pub fn look(
    jd1s: &[u8],
    jd2s: &[u8],
    numbers: &[u8],
    first: usize,
    second: usize,
    gps: RunEnd,
    tai: RunEnd,
    utc: RunEnd,
    table: AnnouncedRows,
    known: u32,
) -> Result<u32, Refusal>
    ensures { outcome result ≡ onward (table_of table) (λ rows. answer (L.look_of rows known gps tai utc
        (stamps jd1s.now jd2s.now numbers.now first second))) }
{
    leap_table::rows::judge_table(&table)?;
    let runs = runs_of(first, second, numbers.len());
    Ok(look_of(jd1s, jd2s, numbers, runs, gps, tai, utc, table, known))
}

fn place_words(words: &[u8], dst: &mut [u8], at: usize) -> usize
    requires { at + length words.now ≤ length dst.old }
    ensures { PlacedIn dst.old at words.now (length words.now) result dst.new }
{
    place_bytes(words, dst, at)
}

// The text of a UTC, or that there is none.
// kept: `match` here, in `place_date` and in `place_span`, since both arms write into `dst`.
fn place_text(utc: JulianDate, table: AnnouncedRows, dst: &mut [u8], at: usize) -> usize
    requires { at + 27 ≤ length dst.old }
    ensures { PlacedIn dst.old at (S.text_or (iso_text_expanded (rows_of table) utc)) 27 result dst.new }
{
    match utc::iso_texts::to_iso8601_expanded_by_rows(UTC(utc), &table, &mut dst[at..]) {
        Ok((n, _)) => at + n,
        Err(_) => place_words(b"no text", dst, at),
    }
}

// The same of a TAI.
#[tactic(auto, using(refusals::proofs::Handed::handed_by), unfolding(crate::specs::summary::Summary::date_told, crate::specs::summary::Summary::text_or))]
fn place_date(tai: JulianDate, table: AnnouncedRows, dst: &mut [u8], at: usize) -> usize
    requires { at + 27 ≤ length dst.old }
    ensures { PlacedIn dst.old at (S.date_told (rows_of table) tai) 27 result dst.new }
{
    match utc_of(tai, table) {
        Err(_) => place_words(b"no text", dst, at),
        Ok(utc) => place_text(utc.0, table, dst, at),
    }
}

#[tactic(auto, unfolding(crate::specs::summary::Summary::thousandths))]
fn thousandths(n: u64) -> [u8; 6]
    ensures { result ≡ S.thousandths n }
{
    [
        b'.',
        48 + (n / 100 % 10) as u8,
        48 + (n / 10 % 10) as u8,
        48 + (n % 10) as u8,
        b' ',
        b's',
    ]
}

// Milliseconds, told in seconds.
fn place_millis(m: u64, dst: &mut [u8], at: usize) -> usize
    requires { at + 32 ≤ length dst.old }
    ensures { PlacedIn dst.old at (S.span_by (answer m)) 32 result dst.new }
{
    let a = place_count(b" span ", m / 1000, dst, at);
    let all = thousandths(m % 1000);
    place_words(&all, dst, a)
}

// The time between two TAI.
#[tactic(auto, unfolding(crate::specs::summary::Summary::span_by, refusals::specs::Outcome::outcome))]
fn place_span(from: JulianDate, to: JulianDate, dst: &mut [u8], at: usize) -> usize
    requires { at + 32 ≤ length dst.old }
    ensures { PlacedIn dst.old at (S.span_by (millis_from_to from to)) 32 result dst.new }
{
    match since_launch::milliseconds(from, to) {
        Err(_) => place_words(b" span unknown", dst, at),
        Ok(m) => place_millis(m, dst, at),
    }
}

// The first and the last stamp of a run.
fn place_ends(ends: Ends, table: AnnouncedRows, dst: &mut [u8], at: usize) -> usize
    requires { at + 98 ≤ length dst.old }
    ensures { PlacedIn dst.old at (S.ends_told (rows_of table) ends) 98 result dst.new }
{
    let first = ends.first;
    let last = ends.last;
    let a = place_words(b"first ", dst, at);
    let b = place_date(first, table, dst, a);
    let c = place_words(b" last ", dst, b);
    let d = place_date(last, table, dst, c);
    place_span(first, last, dst, d)
}

// The same, or that there is none.
#[tactic(auto, unfolding(crate::specs::summary::Summary::ordered_told))]
fn place_ordered(ends: Ends, table: AnnouncedRows, dst: &mut [u8], at: usize) -> usize
    requires { at + 98 ≤ length dst.old }
    ensures { PlacedIn dst.old at (S.ordered_told (rows_of table) ends) 98 result dst.new }
{
    if ends.any {
        return place_ends(ends, table, dst, at);
    }
    place_words(b"no stamp is ordered", dst, at)
}

// The first line of a run.
fn place_line(name: &[u8], ends: Ends, table: AnnouncedRows, dst: &mut [u8], at: usize) -> usize
    requires { (length name.now ≡ 4) × (at + 103 ≤ length dst.old) }
    ensures { PlacedIn dst.old at (S.ends_line (rows_of table) name.now ends) 103 result dst.new }
{
    let a = place_words(name, dst, at);
    let b = place_ordered(ends, table, dst, a);
    place_words(b"\n", dst, b)
}

// The line of the stamps that are left out, where there are any.
fn place_out(name: &[u8], out: Seen, dst: &mut [u8], at: usize) -> usize
    requires { (length name.now ≡ 4) × (at + 61 ≤ length dst.old) }
    ensures { PlacedIn dst.old at (S.out_line name.now out) 61 result dst.new }
{
    if out.many == 0 {
        return at;
    }
    let a = place_words(name, dst, at);
    let b = place_count(b"left out ", out.many as u64, dst, a);
    let c = place_count(b" first ", out.first as u64, dst, b);
    place_words(b"\n", dst, c)
}

// The lines of a run of n stamps from `from` on, where it is named.
fn place_run(
    name: &[u8],
    run: RunEnd,
    jd1s: &[u8],
    jd2s: &[u8],
    numbers: &[u8],
    from: usize,
    n: usize,
    table: AnnouncedRows,
    dst: &mut [u8],
    at: usize,
) -> usize
    requires { (length name.now ≡ 4) × (from + n < 18446744073709551616) × (at + 164 ≤ length dst.old) }
    ensures { PlacedIn dst.old at
        (S.run_told (rows_of table) name.now run jd1s.now jd2s.now numbers.now from n) 164 result dst.new }
{
    if !run.named {
        return at;
    }
    let ends = ends_of(jd1s, jd2s, numbers, from, n);
    let out = seen_in(numbers, LEFT_OUT, from, n);
    let next = place_line(name, ends, table, dst, at);
    place_out(name, out, dst, next)
}

#[tactic(auto, unfolding(crate::specs::summary::Summary::dash_two))]
fn dash_two(n: u32) -> [u8; 3]
    ensures { result ≡ S.dash_two n }
{
    [b'-', 48 + (n / 10 % 10) as u8, 48 + (n % 10) as u8]
}

fn place_two(n: u32, dst: &mut [u8], at: usize) -> usize
    requires { at + 3 ≤ length dst.old }
    ensures { PlacedIn dst.old at (S.dash_two n) 3 result dst.new }
{
    let all = dash_two(n);
    place_words(&all, dst, at)
}

// How many rows, and the month of the last.
fn place_rows(count: usize, month: u32, dst: &mut [u8], at: usize) -> usize
    requires { at + 60 ≤ length dst.old }
    ensures { PlacedIn dst.old at (S.rows_told count month) 60 result dst.new }
{
    let a = place_count(b"table ", count as u64, dst, at);
    let b = place_count(b" rows last ", (month / 12) as u64, dst, a);
    place_two(month % 12 + 1, dst, b)
}

#[tactic(auto, unfolding(crate::specs::summary::Summary::row_seconds))]
fn row_seconds(table: AnnouncedRows, month: u32) -> u32
    requires { month ≤ 2147483647 }
    ensures { result ≡ S.row_seconds (rows_of table) month }
{
    leap_table::offsets::whole_seconds_by_rows((month / 12) as i32, month % 12 + 1, &table)
}

// The seconds of the last row, and how many rows are lent.
fn place_seconds(seconds: u32, lent: usize, dst: &mut [u8], at: usize) -> usize
    requires { at + 47 ≤ length dst.old }
    ensures { PlacedIn dst.old at (S.seconds_told seconds lent) 47 result dst.new }
{
    let a = place_count(b" ", seconds as u64, dst, at);
    place_count(b" lent ", lent as u64, dst, a)
}

// The day until which the table is known.
fn place_day(date: calendar::CalendarDate, dst: &mut [u8], at: usize) -> usize
    requires { at + 40 ≤ length dst.old }
    ensures { PlacedIn dst.old at (S.day_told date) 40 result dst.new }
{
    let year = leap_table::rows::natural(date.year);
    let a = place_count(b" known until ", year as u64, dst, at);
    let b = place_two(date.month, dst, a);
    let c = place_two(date.day, dst, b);
    place_words(b"\n", dst, c)
}

// The date of a Modified Julian Date.
fn date_of(day: u32) -> calendar::CalendarDate
    requires { day ≤ 997599999 }
    ensures { result ≡ gregorian_date (pos (day + 2400001)) }
{
    calendar::gregorian_date((day as u64 + MJD_0) as i64)
}

// The table's line.
fn place_table(table: AnnouncedRows, known: u32, dst: &mut [u8], at: usize) -> usize
    requires { at + 147 ≤ length dst.old }
    ensures { PlacedIn dst.old at (S.table_told (rows_of table) known) 147 result dst.new }
{
    let count = leap_table::offsets::walk_rows::row_count(table);
    let month = last_month(table);
    let seconds = row_seconds(table, month);
    let lent = lent_rows(table);
    let date = date_of(known_until(table, known));
    let a = place_rows(count, month, dst, at);
    let b = place_seconds(seconds, lent, dst, a);
    place_day(date, dst, b)
}

// Words, where a number is odd.
fn place_if(bit: u32, words: &[u8], dst: &mut [u8], at: usize) -> usize
    requires { at + length words.now ≤ length dst.old }
    ensures { PlacedIn dst.old at (S.if_set bit words.now) (length words.now) result dst.new }
{
    if bit % 2 == 1 {
        return place_words(words, dst, at);
    }
    at
}

// The lines of what to look at.
fn place_looks(look: u32, dst: &mut [u8], at: usize) -> usize
    requires { at + 193 ≤ length dst.old }
    ensures { PlacedIn dst.old at (S.looks_told look) 193 result dst.new }
{
    let a = place_if(look, b"look: stamps are left out\n", dst, at);
    let b = place_if(look / 2, b"look: a named run has no stamp\n", dst, a);
    let c = place_if(
        look / 4,
        b"look: stamps lie after the day until which the table is known\n",
        dst,
        b,
    );
    place_if(
        look / 8,
        b"look: two runs begin and end apart as two scales do: are names exchanged?\n",
        dst,
        c,
    )
}

// The lines of the three runs.
fn place_runs(
    jd1s: &[u8],
    jd2s: &[u8],
    numbers: &[u8],
    runs: Runs,
    gps: RunEnd,
    tai: RunEnd,
    utc: RunEnd,
    table: AnnouncedRows,
    dst: &mut [u8],
) -> usize
    requires { InRuns runs × (492 ≤ length dst.old) }
    ensures { PlacedIn dst.old 0
        (runs_by (rows_of table) gps tai utc jd1s.now jd2s.now numbers.now runs) 492 result dst.new }
{
    let a = place_run(
        b"gps ", gps, jd1s, jd2s, numbers, 0, runs.end1, table, dst, 0,
    );
    let n = runs.end2 - runs.end1;
    let b = place_run(
        b"tai ", tai, jd1s, jd2s, numbers, runs.end1, n, table, dst, a,
    );
    let m = runs.end3 - runs.end2;
    place_run(
        b"utc ", utc, jd1s, jd2s, numbers, runs.end2, m, table, dst, b,
    )
}

// All lines, at the start of a slice that surely holds them.
fn compose(
    jd1s: &[u8],
    jd2s: &[u8],
    numbers: &[u8],
    first: usize,
    second: usize,
    gps: RunEnd,
    tai: RunEnd,
    utc: RunEnd,
    table: AnnouncedRows,
    known: u32,
    dst: &mut [u8],
) -> usize
    requires { 832 ≤ length dst.old }
    ensures { PlacedIn dst.old 0 (S.summary_text (rows_of table) known gps tai utc
        (stamps jd1s.now jd2s.now numbers.now first second)) 832 result dst.new }
{
    let runs = runs_of(first, second, numbers.len());
    let look = look_of(jd1s, jd2s, numbers, runs, gps, tai, utc, table, known);
    let a = place_runs(jd1s, jd2s, numbers, runs, gps, tai, utc, table, dst);
    let b = place_table(table, known, dst, a);
    place_looks(look, dst, b)
}

// The summary at the start of the buffer: of each named run the first and the last ordered stamp and the time between them, and how many are left out and
// the index of the first of them; of the table how many rows it has, the month and the seconds of the last, how many are lent and until when it is known;
// and a line for each bit of `look`. Refusals in order: 20 to 22 the table, 11 where it does not fit, and nothing is written; 832 bytes are enough.
pub fn put_summary(
    jd1s: &[u8],
    jd2s: &[u8],
    numbers: &[u8],
    first: usize,
    second: usize,
    gps: RunEnd,
    tai: RunEnd,
    utc: RunEnd,
    table: AnnouncedRows,
    known: u32,
    out: &mut [u8],
) -> Result<usize, Refusal>
    ensures { TextCall (onward (table_of table) (λ rows. answer (S.summary_text rows known gps tai utc
        (stamps jd1s.now jd2s.now numbers.now first second)))) out.old result out.new }
{
    leap_table::rows::judge_table(&table)?;
    let mut all = [0u8; SUMMARY_BYTES];
    let n = compose(
        jd1s, jd2s, numbers, first, second, gps, tai, utc, table, known, &mut all,
    );
    if out.len() < n {
        return Err(Refusal::NoRoom);
    }
    Ok(numerals::place::copy(&all[..n], out))
}
