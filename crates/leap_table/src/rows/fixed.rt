// The fixed rows of the table: how many, the months in which they begin, and what the first announced row is held against. A new row of the IERS changes this
// file and specs/rows/Table.antt.

// How many rows the fixed table has.
pub const FIXED_ROWS: u32 = 42;

pub(crate) const FIXED_SIZE: usize = FIXED_ROWS as usize;

// The month and the seconds of the last of them.
pub const LAST_MONTH: u32 = 24204;

pub const LAST_SECONDS: u32 = 37;

// The months in which the rows begin, numbered from January of year 0.
pub(crate) const MONTHS: [u64; FIXED_SIZE] = [
    23520, // 1960-01
    23532, // 1961-01
    23539, // 1961-08
    23544, // 1962-01
    23566, // 1963-11
    23568, // 1964-01
    23571, // 1964-04
    23576, // 1964-09
    23580, // 1965-01
    23582, // 1965-03
    23586, // 1965-07
    23588, // 1965-09
    23592, // 1966-01
    23617, // 1968-02
    23664, // 1972-01
    23670, // 1972-07
    23676, // 1973-01
    23688, // 1974-01
    23700, // 1975-01
    23712, // 1976-01
    23724, // 1977-01
    23736, // 1978-01
    23748, // 1979-01
    23760, // 1980-01
    23778, // 1981-07
    23790, // 1982-07
    23802, // 1983-07
    23826, // 1985-07
    23856, // 1988-01
    23880, // 1990-01
    23892, // 1991-01
    23910, // 1992-07
    23922, // 1993-07
    23934, // 1994-07
    23952, // 1996-01
    23970, // 1997-07
    23988, // 1999-01
    24072, // 2006-01
    24108, // 2009-01
    24150, // 2012-07
    24186, // 2015-07
    24204, // 2017-01
];
