// Whether two stamps are the same: scales as numbers and parts as bit patterns, which no C compiler or floating-point unit changes on the way.
ghost use Rattle.std.specs.Prelude.{◌≡◌};
ghost use Rattle.julian.specs.same_stamps.Same.{stamp, same};
ghost use Rattle.c_answers.specs.Delivery.{truth};

use julian::same_stamps::Stamp;

#[unsafe(no_mangle)]
pub extern "C" fn ct_same_stamp(
    scale: u32,
    jd1: u64,
    jd2: u64,
    other_scale: u32,
    other1: u64,
    other2: u64,
) -> i64
    ensures { result ≡ truth (same (stamp scale jd1 jd2) (stamp other_scale other1 other2)) }
{
    let one = Stamp { scale, jd1, jd2 };
    let two = Stamp {
        scale: other_scale,
        jd1: other1,
        jd2: other2,
    };
    i64::from(julian::same_stamps::same_stamp(one, two))
}
