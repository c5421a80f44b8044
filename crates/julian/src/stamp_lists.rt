// Stamps as two lists of bytes, eight for each part, the lowest first.
ghost use Rattle.std.specs.Prelude.{◌≡◌};
ghost use Rattle.julian.specs.stamp_lists.Stamps.{stamp_of};

use crate::JulianDate;

// Stamp i of the lists; a part that its list does not have is 0.
pub fn stamp_of(jd1s: &[u8], jd2s: &[u8], i: usize) -> JulianDate
    ensures { result ≡ stamp_of jd1s.now jd2s.now i }
{
    let x = floats::from_bits(numerals::little_endian::nth_u64(jd1s, i));
    let y = floats::from_bits(numerals::little_endian::nth_u64(jd2s, i));
    JulianDate::new(x, y)
}
