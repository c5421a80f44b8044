// Whether two stamps are the same, scale and bits. A filter for duplicates asks this: two divisions of one moment are equal as dates, and two stamps.
ghost use Rattle.std.specs.Prelude.{◌≡◌};
ghost use Rattle.julian.specs.same_stamps.Same.{same};

// A stamp as it was recorded: its scale, and the bit patterns of its two parts. Not floats, because a float here does not tell one NaN from another.
#[derive(Clone, Copy)]
pub struct Stamp {
    pub scale: u32,
    pub jd1: u64,
    pub jd2: u64,
}

// kept: field by field, and no derived `==`: must-fail/scale_left_out and wrong/first_part_twice each turn one of the tests, and keep their meaning.
pub fn same_stamp(a: Stamp, b: Stamp) -> bool
    ensures { result ≡ same a b }
{
    if a.scale != b.scale {
        return false;
    }
    if a.jd1 != b.jd1 {
        return false;
    }
    a.jd2 == b.jd2
}
