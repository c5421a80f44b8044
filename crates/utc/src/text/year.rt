// The year of UTC text: its sign and size, and where its characters stand in seven places.
ghost use Rattle.std.specs.Prelude.{◌≡◌, not, ◌≤◌, nat_abs};
ghost use Rattle.std.specs.Int.Signed.{non_neg};
ghost use Rattle.utc.specs.text.Layout.{basic_year, third as third·of, fourth as fourth·of, skipped as skipped·of};

pub(crate) fn negative(year: i32) -> bool
    ensures { result ≡ not (non_neg year) }
{
    year < 0
}

// The year without its sign.
pub(crate) fn size(year: i32) -> u32
    ensures { result ≡ nat_abs year }
{
    year.unsigned_abs()
}

// Whether four digits and no sign are the whole year.
#[tactic(auto, unfolding(crate::specs::text::Layout::basic_year))]
pub(crate) fn is_basic(negative: bool, size: u32) -> bool
    ensures { result ≡ basic_year negative size }
{
    !negative && size < 10000
}

// The third of seven places: a sign's, where there is one.
#[tactic(auto, unfolding(crate::specs::text::Layout::third))]
pub(crate) fn third(negative: bool, size: u32) -> u8
    ensures { result ≡ third·of negative size }
{
    if negative {
        b'-'
    } else {
        48 + (size / 10000 % 10) as u8
    }
}

// The fourth: a sign's place where three digits hold the year.
#[tactic(auto, unfolding(crate::specs::text::Layout::fourth))]
pub(crate) fn fourth(negative: bool, size: u32) -> u8
    ensures { result ≡ fourth·of negative size }
{
    if negative {
        if size < 1000 {
            return b'-';
        }
        return 48 + (size / 1000 % 10) as u8;
    }
    48 + (size / 1000 % 10) as u8
}

// How many of the seven places are left out in front.
#[tactic(auto, unfolding(crate::specs::text::Layout::skipped))]
pub(crate) fn skipped(negative: bool, size: u32) -> usize
    ensures { (result ≡ skipped·of negative size) × (result ≤ 3) }
{
    if negative {
        if size < 1000 {
            return 3;
        }
        return 2;
    }
    if size < 10000 {
        return 3;
    }
    if size < 100000 {
        return 2;
    }
    if size < 1000000 {
        return 1;
    }
    0
}
