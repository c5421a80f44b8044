// The day and the fraction of a date, whichever way it is divided into two parts. From the Rust's utc_tai/calendar.rs but for its calendar.
ghost use Rattle.std.specs.Prelude.{◌≡◌, true, ◌≤◌, pos, ◌+ℤ◌, ◌-ℤ◌};
ghost use Rattle.refusals.specs.Outcome.{outcome};
ghost use Rattle.julian.specs.day_number.DayNumber as S;
ghost use Rattle.julian.specs.day_number.Answer.{day_number_and_fraction};
ghost use Rattle.julian.specs.day_number.Sums.{Sums};
ghost use Rattle.floats.specs.NearestWhole.{nearest_whole};

use refusals::Refusal;

// A civil day by its Julian Day number, and the fraction of it since its midnight, from 0.0 to below 1.0.
#[derive(Clone, Copy)]
pub struct DayNumber {
    pub day: i64,
    pub fraction: f64,
}

// A compensated sum and its correction.
#[derive(Clone, Copy)]
struct Kahan {
    sum: f64,
    correction: f64,
}

// The days carried out of a sum, and the sum.
#[derive(Clone, Copy)]
struct Summed {
    carry: u64,
    kahan: Kahan,
}

// The days borrowed for a sum, the sum with them, and the fraction that it comes to.
#[derive(Clone, Copy)]
struct Borrowed {
    borrow: u64,
    kahan: Kahan,
    fraction: f64,
}

// The days carried out of a fraction, and the fraction.
#[derive(Clone, Copy)]
struct Carried {
    carry: u64,
    fraction: f64,
}

// The days carried and borrowed, and the fraction.
#[derive(Clone, Copy)]
struct Normalized {
    carry: u64,
    borrow: u64,
    fraction: f64,
}

// The least and the greatest rounded sum of a date's parts.
pub const DJMIN: f64 = -68569.5;

pub const DJMAX: f64 = 1e9;

const DBL_EPSILON: f64 = 2.220446049250313e-16;

// Whether the rounded sum of a date's parts is in the range. A NaN is not.
fn check_julian_range(dj: f64) -> bool
    ensures { result ≡ S.in_julian_range dj }
{
    dj >= DJMIN && dj <= DJMAX
}

// What the rounded sum `temp` of the two lost.
#[tactic(auto, unfolding(crate::specs::day_number::DayNumber::compensation))]
fn compensation(sum: f64, frac: f64, temp: f64) -> f64
    ensures { result ≡ S.compensation sum frac temp }
{
    if floats::at_least_in_size(sum, frac) {
        (sum - temp) + frac
    } else {
        (frac - temp) + sum
    }
}

// One turn of the Rust's loop: the fraction added, and a whole day carried.
#[tactic(auto, using(floats::proofs::Cases::literals), unfolding(crate::specs::day_number::DayNumber::add_fraction))]
fn add_fraction(carry: u64, kahan: Kahan, frac: f64) -> Summed
    requires { carry ≤ 1 }
    ensures { result ≡ S.add_fraction carry kahan frac }
{
    let temp = kahan.sum + frac;
    let correction = kahan.correction + compensation(kahan.sum, frac, temp);
    if temp >= 1.0 {
        Summed {
            carry: carry + 1,
            kahan: Kahan {
                sum: temp - 1.0,
                correction: correction,
            },
        }
    } else {
        Summed {
            carry: carry,
            kahan: Kahan {
                sum: temp,
                correction: correction,
            },
        }
    }
}

// Starting the sum at 0.5 moves the day boundary from noon to midnight.
#[tactic(auto, using(floats::proofs::Cases::literals), unfolding(crate::specs::day_number::DayNumber::sum_fractions))]
fn sum_fractions(first: f64, second: f64) -> Summed
    ensures { result ≡ S.sum_fractions first second }
{
    let start = Kahan {
        sum: 0.5,
        correction: 0.0,
    };
    let one = add_fraction(0, start, first);
    let kahan = one.kahan;
    add_fraction(one.carry, kahan, second)
}

// One day more in the sum, where its fraction is below 0.0.
#[tactic(auto, using(floats::proofs::Cases::literals), unfolding(crate::specs::day_number::DayNumber::borrow_day))]
fn borrow_day(kahan: Kahan) -> Borrowed
    ensures { result ≡ S.borrow_day kahan }
{
    let sum = kahan.sum + 1.0;
    let correction = kahan.correction + ((1.0 - sum) + kahan.sum);
    let fraction = sum + correction;
    Borrowed {
        borrow: 1,
        kahan: Kahan {
            sum: sum,
            correction: fraction - sum,
        },
        fraction: fraction,
    }
}

// A fraction less than 2^-54 below 1.0, or above, carries into the next day.
fn carry_day(kahan: Kahan, fraction: f64) -> Carried
    ensures { result ≡ S.carry_day kahan fraction }
{
    if (fraction - 1.0) < -DBL_EPSILON / 4.0 {
        return Carried {
            carry: 0,
            fraction: fraction,
        };
    }
    let sum = kahan.sum - 1.0;
    let correction = kahan.correction + ((kahan.sum - sum) - 1.0);
    let rest = sum + correction;
    if -DBL_EPSILON / 2.0 < rest {
        Carried {
            carry: 1,
            fraction: if rest > 0.0 { rest } else { 0.0 },
        }
    } else {
        Carried {
            carry: 0,
            fraction: rest,
        }
    }
}

// Brings the compensated sum into [0, 1).
#[tactic(auto, using(floats::proofs::Cases::literals), unfolding(crate::specs::day_number::DayNumber::normalize_fraction))]
fn normalize_fraction(kahan: Kahan) -> Normalized
    ensures { result ≡ S.normalize_fraction kahan }
{
    let fraction = kahan.sum + kahan.correction;
    let settled = Kahan {
        sum: kahan.sum,
        correction: fraction - kahan.sum,
    };
    if fraction < 0.0 {
        let more = borrow_day(settled);
        let kahan = more.kahan;
        let end = carry_day(kahan, more.fraction);
        Normalized {
            carry: end.carry,
            borrow: more.borrow,
            fraction: end.fraction,
        }
    } else {
        let end = carry_day(settled, fraction);
        Normalized {
            carry: end.carry,
            borrow: 0,
            fraction: end.fraction,
        }
    }
}

// The days of the two parts, with what the fractions carried and borrowed.
fn total_day(a: i64, b: i64, carry: u64, more: u64, borrow: u64) -> i64
    requires { Sums a b carry more borrow }
    ensures { result ≡ a +ℤ b +ℤ pos carry +ℤ (pos more -ℤ pos borrow) }
{
    a + b + (carry as i64) + ((more as i64) - (borrow as i64))
}

// The day and the fraction by the sum of both parts' fractions.
fn day_by_sums(
    jd1: f64,
    jd2: f64,
    first: floats::NearestWhole,
    second: floats::NearestWhole,
) -> DayNumber
    requires { (S.accepted jd1 jd2 ≡ true) × (first ≡ nearest_whole jd1) × (second ≡ nearest_whole jd2) }
    ensures { result ≡ S.day_of jd1 jd2 }
{
    let summed = sum_fractions(jd1 - first.value, jd2 - second.value);
    let kahan = summed.kahan;
    let end = normalize_fraction(kahan);
    let day = total_day(
        first.number,
        second.number,
        summed.carry,
        end.carry,
        end.borrow,
    );
    DayNumber {
        day: day,
        fraction: end.fraction,
    }
}

// The day and the fraction of a date whose rounded sum is in the range. Where jd1 is a midnight above 0, as mostly, its fraction takes the sum's 0.5 away: what
// is left is jd2's fraction, of which a sum with 0.0 loses nothing, and with a day borrowed no more than its one rounding.
fn day_in_range(jd1: f64, jd2: f64) -> DayNumber
    requires { S.accepted jd1 jd2 ≡ true }
    ensures { result ≡ S.day_of jd1 jd2 }
{
    let first = floats::nearest_whole(jd1);
    let second = floats::nearest_whole(jd2);
    if jd1 - first.value == -0.5 {
        let fraction = 0.0 + (jd2 - second.value);
        if fraction >= 0.0 {
            if fraction < 1.0 {
                let day = total_day(first.number, second.number, 0, 0, 0);
                return DayNumber {
                    day: day,
                    fraction: fraction,
                };
            }
        } else if fraction > -1.0 {
            let more = fraction + 1.0;
            if more < 1.0 {
                let day = total_day(first.number, second.number, 0, 0, 1);
                return DayNumber {
                    day: day,
                    fraction: more,
                };
            }
        }
    }
    day_by_sums(jd1, jd2, first, second)
}

// The day and the fraction of any two floats, or 6 where their rounded sum is outside the range.
pub fn day_number_and_fraction(jd1: f64, jd2: f64) -> Result<DayNumber, Refusal>
    ensures { outcome result ≡ day_number_and_fraction jd1 jd2 }
{
    if check_julian_range(jd1 + jd2) {
        Ok(day_in_range(jd1, jd2))
    } else {
        Err(Refusal::DateOutOfRange)
    }
}
