// Eight time scales, and the sixteen conversions between them that read no table. Each scale is a type of its own around a Julian date, so that a date
// counted in one can't be given where another is due. The check finds the conversions' proofs by the set `handed` of proofs/Seen.antt.
#![tactic(auto, using(crate::proofs::Seen::handed), unfolding(crate::specs::Conversions::answer_of))]

ghost use Rattle.std.specs.Prelude.{◌≡◌};

use julian::JulianDate;

pub mod gps_tai;
pub mod gps_weeks;
pub mod tai_tt;
pub mod tcb_tdb;
pub mod tt_tcg;
pub mod tt_tdb;
pub mod ut1_tai;

// kept: eight types with the same two functions. A type for each scale is the promise above; a macro writes no clause, and a trait would
// make every caller name it and still take the sixteen bodies.

// Coordinated Universal Time.
#[derive(Clone, Copy)]
pub struct UTC(pub JulianDate);

// International Atomic Time.
#[derive(Clone, Copy)]
pub struct TAI(pub JulianDate);

// Universal Time, by the Earth's rotation.
#[derive(Clone, Copy)]
pub struct UT1(pub JulianDate);

// Terrestrial Time.
#[derive(Clone, Copy)]
pub struct TT(pub JulianDate);

// GPS time.
#[derive(Clone, Copy)]
pub struct GPS(pub JulianDate);

// Geocentric Coordinate Time.
#[derive(Clone, Copy)]
pub struct TCG(pub JulianDate);

// Barycentric Coordinate Time.
#[derive(Clone, Copy)]
pub struct TCB(pub JulianDate);

// Barycentric Dynamical Time.
#[derive(Clone, Copy)]
pub struct TDB(pub JulianDate);

impl UTC {
    pub fn from_julian_date(jd: JulianDate) -> UTC
        ensures { result.0 ≡ jd }
    {
        UTC(jd)
    }

    pub fn to_julian_date(self) -> JulianDate
        ensures { result ≡ self.0 }
    {
        self.0
    }
}

impl TAI {
    pub fn from_julian_date(jd: JulianDate) -> TAI
        ensures { result.0 ≡ jd }
    {
        TAI(jd)
    }

    pub fn to_julian_date(self) -> JulianDate
        ensures { result ≡ self.0 }
    {
        self.0
    }
}

impl UT1 {
    pub fn from_julian_date(jd: JulianDate) -> UT1
        ensures { result.0 ≡ jd }
    {
        UT1(jd)
    }

    pub fn to_julian_date(self) -> JulianDate
        ensures { result ≡ self.0 }
    {
        self.0
    }
}

impl TT {
    pub fn from_julian_date(jd: JulianDate) -> TT
        ensures { result.0 ≡ jd }
    {
        TT(jd)
    }

    pub fn to_julian_date(self) -> JulianDate
        ensures { result ≡ self.0 }
    {
        self.0
    }
}

impl GPS {
    pub fn from_julian_date(jd: JulianDate) -> GPS
        ensures { result.0 ≡ jd }
    {
        GPS(jd)
    }

    pub fn to_julian_date(self) -> JulianDate
        ensures { result ≡ self.0 }
    {
        self.0
    }
}

impl TCG {
    pub fn from_julian_date(jd: JulianDate) -> TCG
        ensures { result.0 ≡ jd }
    {
        TCG(jd)
    }

    pub fn to_julian_date(self) -> JulianDate
        ensures { result ≡ self.0 }
    {
        self.0
    }
}

impl TCB {
    pub fn from_julian_date(jd: JulianDate) -> TCB
        ensures { result.0 ≡ jd }
    {
        TCB(jd)
    }

    pub fn to_julian_date(self) -> JulianDate
        ensures { result ≡ self.0 }
    {
        self.0
    }
}

impl TDB {
    pub fn from_julian_date(jd: JulianDate) -> TDB
        ensures { result.0 ≡ jd }
    {
        TDB(jd)
    }

    pub fn to_julian_date(self) -> JulianDate
        ensures { result ≡ self.0 }
    {
        self.0
    }
}
