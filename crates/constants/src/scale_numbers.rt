// The numbers of the scales, as recorded stamps and calls of whole runs have them.
ghost use Rattle.std.specs.Prelude.{◌≡◌, ◌&&◌, eqb};

// The scales by number, in document 01's order. Any other number is a scale of its own.
// kept: numbers and no enum: a recorded stamp may have any (julian::same_stamps), and the calls of runs take every number, refuse the others by 18, and their
// theorems (runs/specs/laws) speak of numbers.
pub const UTC: u32 = 0;

pub const TAI: u32 = 1;

pub const UT1: u32 = 2;

pub const TT: u32 = 3;

pub const GPS: u32 = 4;

pub const TCG: u32 = 5;

pub const TCB: u32 = 6;

pub const TDB: u32 = 7;

// Whether `from` and `to` are these two scales.
pub fn are(from: u32, to: u32, a: u32, b: u32) -> bool
    ensures { result ≡ (eqb from a && eqb to b) }
{
    if from != a {
        return false;
    }
    to == b
}
