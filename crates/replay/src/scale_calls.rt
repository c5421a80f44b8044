// The scales: calls 80 to 95, a scale around a date, and 100 to 115, the conversions that read no table.
use crate::words;
use crate::words::Answer;
use scales::{GPS, TAI, TCB, TCG, TDB, TT, UT1, UTC};

// Around a date and out again.
fn around(call: u64, record: &[u8; 128]) -> Answer {
    let date = words::date_at(record, 1);
    match call {
        80 => words::date(UTC::from_julian_date(date).0),
        81 => words::date(TAI::from_julian_date(date).0),
        82 => words::date(UT1::from_julian_date(date).0),
        83 => words::date(TT::from_julian_date(date).0),
        84 => words::date(GPS::from_julian_date(date).0),
        85 => words::date(TCG::from_julian_date(date).0),
        86 => words::date(TCB::from_julian_date(date).0),
        _ => words::date(TDB::from_julian_date(date).0),
    }
}

fn out_again(call: u64, record: &[u8; 128]) -> Answer {
    let date = words::date_at(record, 1);
    match call {
        88 => words::date(UTC(date).to_julian_date()),
        89 => words::date(TAI(date).to_julian_date()),
        90 => words::date(UT1(date).to_julian_date()),
        91 => words::date(TT(date).to_julian_date()),
        92 => words::date(GPS(date).to_julian_date()),
        93 => words::date(TCG(date).to_julian_date()),
        94 => words::date(TCB(date).to_julian_date()),
        _ => words::date(TDB(date).to_julian_date()),
    }
}

fn converted(call: u64, record: &[u8; 128]) -> Answer {
    let date = words::date_at(record, 1);
    match call {
        100 => words::told(scales::gps_tai::gps_to_tai(GPS(date)).map(|tai| words::date(tai.0))),
        101 => words::told(scales::gps_tai::tai_to_gps(TAI(date)).map(|gps| words::date(gps.0))),
        102 => words::told(scales::tai_tt::tai_to_tt(TAI(date)).map(|tt| words::date(tt.0))),
        103 => words::told(scales::tai_tt::tt_to_tai(TT(date)).map(|tai| words::date(tai.0))),
        104 => words::told(scales::tai_tt::tai_to_tcg(TAI(date)).map(|tcg| words::date(tcg.0))),
        105 => words::told(scales::tai_tt::tcg_to_tai(TCG(date)).map(|tai| words::date(tai.0))),
        106 => words::told(scales::tt_tcg::tt_to_tcg(TT(date)).map(|tcg| words::date(tcg.0))),
        107 => words::told(scales::tt_tcg::tcg_to_tt(TCG(date)).map(|tt| words::date(tt.0))),
        108 => words::told(scales::tcb_tdb::tcb_to_tdb(TCB(date)).map(|tdb| words::date(tdb.0))),
        _ => words::told(scales::tcb_tdb::tdb_to_tcb(TDB(date)).map(|tcb| words::date(tcb.0))),
    }
}

fn converted_by(call: u64, record: &[u8; 128]) -> Answer {
    let date = words::date_at(record, 1);
    let seconds = words::float_at(record, 3);
    match call {
        110 => words::told(scales::tt_tdb::tt_to_tdb_with_offset(TT(date), seconds).map(
            |tdb| words::date(tdb.0),
        )),
        111 => words::told(scales::tt_tdb::tdb_to_tt_with_offset(TDB(date), seconds).map(
            |tt| words::date(tt.0),
        )),
        112 => words::told(scales::ut1_tai::ut1_to_tai_with_offset(UT1(date), seconds).map(
            |tai| words::date(tai.0),
        )),
        113 => words::told(scales::ut1_tai::tai_to_ut1_with_offset(TAI(date), seconds).map(
            |ut1| words::date(ut1.0),
        )),
        114 => words::told(scales::ut1_tai::ut1_to_tt_with_delta_t(UT1(date), seconds).map(
            |tt| words::date(tt.0),
        )),
        _ => words::told(scales::ut1_tai::tt_to_ut1_with_delta_t(TT(date), seconds).map(
            |ut1| words::date(ut1.0),
        )),
    }
}

pub(crate) fn answered(call: u64, record: &[u8; 128]) -> Answer {
    if call < 88 {
        return around(call, record);
    }
    if call < 100 {
        return out_again(call, record);
    }
    if call < 110 {
        return converted(call, record);
    }
    converted_by(call, record)
}
