// The constants of the conversions, under the Rust's names. Each is computed in the Rust's order of operations. They are those
// of constants.rs but the table of TAI-UTC and the series FAIRHD, and those of celestial_core that the files of the scope read.
#![tactic(auto)]

ghost use Rattle.std.specs.Prelude.{◌≡◌, get_or};
ghost use Rattle.std.specs.Float.{nan};
ghost use Rattle.constants.specs.Constants.{in_order};

pub mod scale_numbers;

// The day's length.
pub const SECONDS_PER_DAY: i64 = 86400;

pub const SECONDS_PER_DAY_F64: f64 = SECONDS_PER_DAY as f64;

pub const NANOSECONDS_PER_SECOND: u32 = 1_000_000_000;

pub const NANOSECONDS_PER_SECOND_F64: f64 = NANOSECONDS_PER_SECOND as f64;

pub const DAYS_PER_JULIAN_YEAR: f64 = 365.25;

// The Julian date at which the Modified Julian Date is 0.
pub const MJD_ZERO_POINT: f64 = 2400000.5;

// 2000-01-01, noon.
pub const J2000_JD: f64 = 2451545.0;

// 1970-01-01, midnight.
pub const UNIX_EPOCH_JD: f64 = 2440587.5;

// TAI - GPS in seconds.
pub const GPS_TO_TAI_OFFSET_SECONDS: f64 = 19.0;

// TT - TAI in seconds.
pub const TT_TAI_OFFSET: f64 = 32.184;

// L_G: the rate at which TT falls behind TCG.
pub const TCG_RATE_LG: f64 = 6.969290134e-10;

// L_B: the rate at which TDB falls behind TCB.
pub const TCB_RATE_LB: f64 = 1.550519768e-8;

// TDB_0 in seconds.
pub const TDB_OFFSET_1977: f64 = -6.55e-5;

// 1977-01-01, midnight, as a Modified Julian Date.
pub const MJD_1977_JAN_1: f64 = 43144.0;

// The instant from which TCG and TCB are counted, as a Modified Julian Date in TT.
pub const TCG_REFERENCE_EPOCH: f64 = MJD_1977_JAN_1 + TT_TAI_OFFSET / SECONDS_PER_DAY_F64;

// The rate at which TCG gains on TT.
pub const TCG_RATE_RATIO: f64 = TCG_RATE_LG / (1.0 - TCG_RATE_LG);

// The rate at which TCB gains on TDB.
pub const TCB_RATE_RATIO: f64 = TCB_RATE_LB / (1.0 - TCB_RATE_LB);

// Every float above, in the order of the definition's list.
const IN_ORDER: [f64; 15] = [
    SECONDS_PER_DAY_F64,
    NANOSECONDS_PER_SECOND_F64,
    DAYS_PER_JULIAN_YEAR,
    MJD_ZERO_POINT,
    J2000_JD,
    UNIX_EPOCH_JD,
    GPS_TO_TAI_OFFSET_SECONDS,
    TT_TAI_OFFSET,
    TCG_RATE_LG,
    TCB_RATE_LB,
    TDB_OFFSET_1977,
    MJD_1977_JAN_1,
    TCG_REFERENCE_EPOCH,
    TCG_RATE_RATIO,
    TCB_RATE_RATIO,
];

// The constant at the place i of the list, and a NaN past its end. The contract fixes the bits of every constant, a whole number's too,
// since its float is its cast.
pub fn constant(i: usize) -> f64
    ensures { result ≡ get_or in_order i nan }
{
    if i < 15 { IN_ORDER[i] } else { 0.0 / 0.0 }
}
