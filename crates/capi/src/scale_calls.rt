// The sixteen scale conversions that read no table: a date's two parts in, the two parts of the date in the other scale out.
// kept: sixteen functions in three shapes, since each is a call of include/celestial_time.h (C interface).
ghost use Rattle.julian.specs.JulianDate.{julian};
ghost use Rattle.scales.specs.Conversions.{answer_of, gps-tai, tai-gps, tai-tt, tt-tai, tai-tcg, tcg-tai, tt_tcg, tcg-tt, tcb-tdb, tdb-tcb, tt-tdb};
ghost use Rattle.scales.specs.Conversions.{tdb-tt, ut1-tai, tai-ut1, ut1-tt, tt-ut1};
ghost use Rattle.c_answers.specs.Delivery.{in_bytes, Delivered};
ghost use Rattle.c_answers.specs.Fields.{julian_bytes};

use crate::date_calls::put_date;
use julian::JulianDate;
use scales::{GPS, TAI, TCB, TCG, TDB, TT, UT1};

#[unsafe(no_mangle)]
pub extern "C" fn ct_gps_to_tai(jd1: f64, jd2: f64, out: &mut [u8]) -> i64
    ensures { Delivered (in_bytes julian_bytes (answer_of gps-tai (julian jd1 jd2))) out.old result out.new }
{
    let gps = GPS(JulianDate { jd1, jd2 });
    put_date(
        scales::gps_tai::gps_to_tai(gps).map(TAI::to_julian_date),
        out,
    )
}

#[unsafe(no_mangle)]
pub extern "C" fn ct_tai_to_gps(jd1: f64, jd2: f64, out: &mut [u8]) -> i64
    ensures { Delivered (in_bytes julian_bytes (answer_of tai-gps (julian jd1 jd2))) out.old result out.new }
{
    let tai = TAI(JulianDate { jd1, jd2 });
    put_date(
        scales::gps_tai::tai_to_gps(tai).map(GPS::to_julian_date),
        out,
    )
}

#[unsafe(no_mangle)]
pub extern "C" fn ct_tai_to_tt(jd1: f64, jd2: f64, out: &mut [u8]) -> i64
    ensures { Delivered (in_bytes julian_bytes (answer_of tai-tt (julian jd1 jd2))) out.old result out.new }
{
    let tai = TAI(JulianDate { jd1, jd2 });
    put_date(scales::tai_tt::tai_to_tt(tai).map(TT::to_julian_date), out)
}

#[unsafe(no_mangle)]
pub extern "C" fn ct_tt_to_tai(jd1: f64, jd2: f64, out: &mut [u8]) -> i64
    ensures { Delivered (in_bytes julian_bytes (answer_of tt-tai (julian jd1 jd2))) out.old result out.new }
{
    let tt = TT(JulianDate { jd1, jd2 });
    put_date(scales::tai_tt::tt_to_tai(tt).map(TAI::to_julian_date), out)
}

#[unsafe(no_mangle)]
pub extern "C" fn ct_tai_to_tcg(jd1: f64, jd2: f64, out: &mut [u8]) -> i64
    ensures { Delivered (in_bytes julian_bytes (answer_of tai-tcg (julian jd1 jd2))) out.old result out.new }
{
    let tai = TAI(JulianDate { jd1, jd2 });
    put_date(
        scales::tai_tt::tai_to_tcg(tai).map(TCG::to_julian_date),
        out,
    )
}

#[unsafe(no_mangle)]
pub extern "C" fn ct_tcg_to_tai(jd1: f64, jd2: f64, out: &mut [u8]) -> i64
    ensures { Delivered (in_bytes julian_bytes (answer_of tcg-tai (julian jd1 jd2))) out.old result out.new }
{
    let tcg = TCG(JulianDate { jd1, jd2 });
    put_date(
        scales::tai_tt::tcg_to_tai(tcg).map(TAI::to_julian_date),
        out,
    )
}

#[unsafe(no_mangle)]
pub extern "C" fn ct_tt_to_tcg(jd1: f64, jd2: f64, out: &mut [u8]) -> i64
    ensures { Delivered (in_bytes julian_bytes (answer_of tt_tcg (julian jd1 jd2))) out.old result out.new }
{
    let tt = TT(JulianDate { jd1, jd2 });
    put_date(scales::tt_tcg::tt_to_tcg(tt).map(TCG::to_julian_date), out)
}

#[unsafe(no_mangle)]
pub extern "C" fn ct_tcg_to_tt(jd1: f64, jd2: f64, out: &mut [u8]) -> i64
    ensures { Delivered (in_bytes julian_bytes (answer_of tcg-tt (julian jd1 jd2))) out.old result out.new }
{
    let tcg = TCG(JulianDate { jd1, jd2 });
    put_date(scales::tt_tcg::tcg_to_tt(tcg).map(TT::to_julian_date), out)
}

#[unsafe(no_mangle)]
pub extern "C" fn ct_tcb_to_tdb(jd1: f64, jd2: f64, out: &mut [u8]) -> i64
    ensures { Delivered (in_bytes julian_bytes (answer_of tcb-tdb (julian jd1 jd2))) out.old result out.new }
{
    let tcb = TCB(JulianDate { jd1, jd2 });
    put_date(
        scales::tcb_tdb::tcb_to_tdb(tcb).map(TDB::to_julian_date),
        out,
    )
}

#[unsafe(no_mangle)]
pub extern "C" fn ct_tdb_to_tcb(jd1: f64, jd2: f64, out: &mut [u8]) -> i64
    ensures { Delivered (in_bytes julian_bytes (answer_of tdb-tcb (julian jd1 jd2))) out.old result out.new }
{
    let tdb = TDB(JulianDate { jd1, jd2 });
    put_date(
        scales::tcb_tdb::tdb_to_tcb(tdb).map(TCB::to_julian_date),
        out,
    )
}

#[unsafe(no_mangle)]
pub extern "C" fn ct_tt_to_tdb_with_offset(jd1: f64, jd2: f64, seconds: f64, out: &mut [u8]) -> i64
    ensures { Delivered (in_bytes julian_bytes (answer_of (tt-tdb seconds) (julian jd1 jd2))) out.old result out.new }
{
    let tt = TT(JulianDate { jd1, jd2 });
    put_date(
        scales::tt_tdb::tt_to_tdb_with_offset(tt, seconds).map(TDB::to_julian_date),
        out,
    )
}

#[unsafe(no_mangle)]
pub extern "C" fn ct_tdb_to_tt_with_offset(jd1: f64, jd2: f64, seconds: f64, out: &mut [u8]) -> i64
    ensures { Delivered (in_bytes julian_bytes (answer_of (tdb-tt seconds) (julian jd1 jd2))) out.old result out.new }
{
    let tdb = TDB(JulianDate { jd1, jd2 });
    put_date(
        scales::tt_tdb::tdb_to_tt_with_offset(tdb, seconds).map(TT::to_julian_date),
        out,
    )
}

#[unsafe(no_mangle)]
pub extern "C" fn ct_ut1_to_tai_with_offset(jd1: f64, jd2: f64, seconds: f64, out: &mut [u8]) -> i64
    ensures { Delivered (in_bytes julian_bytes (answer_of (ut1-tai seconds) (julian jd1 jd2))) out.old result out.new }
{
    let ut1 = UT1(JulianDate { jd1, jd2 });
    put_date(
        scales::ut1_tai::ut1_to_tai_with_offset(ut1, seconds).map(TAI::to_julian_date),
        out,
    )
}

#[unsafe(no_mangle)]
pub extern "C" fn ct_tai_to_ut1_with_offset(jd1: f64, jd2: f64, seconds: f64, out: &mut [u8]) -> i64
    ensures { Delivered (in_bytes julian_bytes (answer_of (tai-ut1 seconds) (julian jd1 jd2))) out.old result out.new }
{
    let tai = TAI(JulianDate { jd1, jd2 });
    put_date(
        scales::ut1_tai::tai_to_ut1_with_offset(tai, seconds).map(UT1::to_julian_date),
        out,
    )
}

#[unsafe(no_mangle)]
pub extern "C" fn ct_ut1_to_tt_with_delta_t(jd1: f64, jd2: f64, seconds: f64, out: &mut [u8]) -> i64
    ensures { Delivered (in_bytes julian_bytes (answer_of (ut1-tt seconds) (julian jd1 jd2))) out.old result out.new }
{
    let ut1 = UT1(JulianDate { jd1, jd2 });
    put_date(
        scales::ut1_tai::ut1_to_tt_with_delta_t(ut1, seconds).map(TT::to_julian_date),
        out,
    )
}

#[unsafe(no_mangle)]
pub extern "C" fn ct_tt_to_ut1_with_delta_t(jd1: f64, jd2: f64, seconds: f64, out: &mut [u8]) -> i64
    ensures { Delivered (in_bytes julian_bytes (answer_of (tt-ut1 seconds) (julian jd1 jd2))) out.old result out.new }
{
    let tt = TT(JulianDate { jd1, jd2 });
    put_date(
        scales::ut1_tai::tt_to_ut1_with_delta_t(tt, seconds).map(UT1::to_julian_date),
        out,
    )
}
