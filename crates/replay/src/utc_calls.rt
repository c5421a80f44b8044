// UTC: calls 120 to 126.
ghost use Rattle.std.specs.Prelude.{◌≤◌};

use crate::words;
use crate::words::Answer;
use leap_table::offsets::Rule;
use refusals::Refusal;
use scales::{TAI, UT1, UTC};

fn from_calendar(record: &[u8; 128]) -> Result<UTC, Refusal> {
    utc::utc_from_calendar(
        words::small_at(record, 1),
        words::byte_at(record, 2),
        words::byte_at(record, 3),
        words::byte_at(record, 4),
        words::byte_at(record, 5),
        words::float_at(record, 6),
        leap_table::rows::no_rows(),
    )
}

// How many of 32 bytes are lent.
fn room(record: &[u8; 128]) -> usize
    ensures { result ≤ 32 }
{
    let n = words::word_at(record, 3);
    if n < 32 { n as usize } else { 32 }
}

// kept: `match`, since both arms give a value: the buffer's bytes count of a refused text too.
fn text(record: &[u8; 128]) -> Answer {
    let mut buffer = [0xaau8; 32];
    let n = room(record);
    match utc::iso_texts::to_iso8601(
        UTC(words::date_at(record, 1)),
        leap_table::rows::no_rows(),
        &mut buffer[..n],
    ) {
        Ok((length, _)) => words::text(0, length as u64, &buffer),
        Err(refusal) => words::text(refusal.number() as u64, 0, &buffer),
    }
}

pub(crate) fn answered(call: u64, record: &[u8; 128]) -> Answer {
    let date = words::date_at(record, 1);
    let dut1 = words::float_at(record, 3);
    let rows = leap_table::rows::no_rows();
    match call {
        120 => words::told(utc::new(
            words::signed_at(record, 1),
            words::number_at(record, 2),
            rows,
        )
        .map(|utc| words::date(utc.0))),
        121 => words::told(from_calendar(record).map(|utc| words::date(utc.0))),
        122 => text(record),
        123 => words::told(utc_scales::utc_tai::utc_to_tai(UTC(date), rows).map(|by_rule: (
            TAI,
            Rule,
        )| words::date(by_rule.0.0))),
        124 => words::told(utc_scales::utc_tai::tai_to_utc(TAI(date), rows).map(|utc| words::date(
            utc.0,
        ))),
        125 => words::told(utc_scales::to_ut1::utc_to_ut1_with_dut1(UTC(date), dut1, rows).map(
            |by_rule: (UT1, Rule)| words::date(by_rule.0.0),
        )),
        _ => words::told(utc_scales::from_ut1::ut1_to_utc_with_dut1(UT1(date), dut1, rows).map(
            |utc| words::date(utc.0),
        )),
    }
}
