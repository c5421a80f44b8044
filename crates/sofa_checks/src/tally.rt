// What was compared, and how much of it was outside SOFA's tolerance.
ghost use Rattle.std.specs.Prelude.{◌≤◌};

// The first part of the dates that SOFA's checks convert from scale to scale.
pub(crate) const DAY: f64 = 2453750.5;

#[derive(Clone, Copy)]
pub(crate) struct Tally {
    pub compared: u64,
    pub outside: u64,
}

pub(crate) fn start() -> Tally {
    Tally {
        compared: 0,
        outside: 0,
    }
}

pub(crate) fn counted(t: Tally, right: bool) -> Tally {
    Tally {
        compared: t.compared.wrapping_add(1),
        outside: t.outside.wrapping_add(u64::from(!right)),
    }
}

// A NaN is near to nothing.
pub(crate) fn near(t: Tally, x: f64, published: f64, tolerance: f64) -> Tally {
    counted(t, floats::fabs(x - published) <= tolerance)
}

pub(crate) fn float_at(out: &[u8], at: usize) -> f64 {
    floats::from_bits(numerals::little_endian::u64_at(out, at))
}

// A date of two parts: status 0, and both parts near.
pub(crate) fn near_date(
    t: Tally,
    answered: bool,
    out: &[u8],
    first: f64,
    first_tolerance: f64,
    second: f64,
    second_tolerance: f64,
) -> Tally {
    let status = counted(t, answered);
    let one = near(status, float_at(out, 0), first, first_tolerance);
    near(one, float_at(out, 8), second, second_tolerance)
}

// What a conversion answers into so many bytes, of which the first 16 are a date: that day, and the second part that is published for it, within 1e-12.
pub(crate) fn near_call<F: FnOnce(&mut [u8]) -> i64>(
    t: Tally,
    size: usize,
    second: f64,
    call: F,
) -> Tally
    requires in_bounds { size ≤ 24 }
    requires callable { F.IsAlwaysCallable call }
{
    let mut out = [0u8; 24];
    let code = call(&mut out[..size]);
    near_date(t, code == size as i64, &out, DAY, 1e-6, second, 1e-12)
}

pub(crate) fn say(words: &[u8], number: u64) {
    io::write_all(1, words);
    io::print_decimal(1, number);
    io::write_all(1, b"\n");
}
