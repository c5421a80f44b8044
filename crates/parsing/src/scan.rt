// One scan through a text.
// kept: indices into the whole text and no slices of it, of which the contracts speak (`drop at`); an index is what each step hands to the next.
ghost use Rattle.std.specs.Prelude.{◌≡◌, cond, ◌+◌, ◌≤◌, length, drop, get_or};
ghost use Rattle.refusals.specs.Outcome.{outcome};
ghost use Rattle.numerals.specs.digits.Decimal.{is_digit};
ghost use Rattle.parsing.specs.scan.Form.{is_blank, after_blanks, two_digits, digit_says, two_say, date_right, is_separator, time_right, zulu_first, end_right};
ghost use Rattle.parsing.specs.scan.Scan.{pairs_at, joined as joined·of, DigitsRun, FractionRun, form_by, scan_of};

use refusals::Refusal;

// What a text of the right form says. The second is `whole` over 10^places where there are at most 13 places; `second` is its whole part.
#[derive(Clone, Copy)]
pub struct Form {
    pub year: u16,
    pub month: u8,
    pub day: u8,
    pub hour: u8,
    pub minute: u8,
    pub second: u8,
    pub whole: u64,
    pub places: usize,
}

// The digits of a fraction: the second with the first 13 of them behind it, how many there are, and the index behind them.
#[derive(Clone, Copy)]
pub struct Run {
    pub whole: u64,
    pub places: usize,
    pub end: usize,
}

#[tactic(auto, unfolding(crate::specs::scan::Form::is_blank))]
pub(crate) fn blank(c: u8) -> bool
    ensures { result ≡ is_blank c }
{
    c == b' ' || (9 <= c && c <= 13)
}

// The index of the first byte from `at` on that is no blank.
#[tactic(auto, using(crate::proofs::Found::blanks))]
fn blanks_end(text: &[u8], at: usize) -> usize
    requires { at ≤ length text.now }
    ensures { (result ≤ length text.now) × (drop result text.now ≡ after_blanks (drop at text.now)) }
{
    for i in at..text.len() {
        if !blank(text[i]) {
            return i;
        }
    }
    text.len()
}

#[tactic(auto, unfolding(numerals::specs::digits::Decimal::is_digit))]
fn digit(c: u8) -> bool
    ensures { result ≡ is_digit c }
{
    c.is_ascii_digit()
}

#[tactic(auto, unfolding(crate::specs::scan::Form::two_digits))]
fn two_digits(a: u8, b: u8) -> bool
    ensures { result ≡ two_digits a b }
{
    digit(a) && digit(b)
}

// The number that a digit says; 0 for any other byte.
#[tactic(auto, using(crate::proofs::Found::worths))]
fn worth(c: u8) -> u8
    ensures { (result ≡ digit_says c) × (result ≤ 9) }
{
    if digit(c) { c - b'0' } else { 0 }
}

pub(crate) fn two(a: u8, b: u8) -> u8
    ensures { (result ≡ two_say a b) × (result ≤ 99) }
{
    10 * worth(a) + worth(b)
}

// Three numbers of two digits with a mark between them: a date but for the first two digits of its year, and a time.
#[tactic(auto, unfolding(crate::specs::scan::Scan::pairs_at))]
pub(crate) fn pairs_right(text: &[u8], at: usize, mark: u8) -> bool
    requires { at + 8 ≤ length text.now }
    ensures { result ≡ pairs_at mark text.now at }
{
    two_digits(text[at], text[at + 1])
        && text[at + 2] == mark
        && two_digits(text[at + 3], text[at + 4])
        && text[at + 5] == mark
        && two_digits(text[at + 6], text[at + 7])
}

// YYYY-MM-DD
#[tactic(auto, using(crate::proofs::Found::starts))]
fn date_right(text: &[u8], at: usize) -> bool
    requires { at + 19 ≤ length text.now }
    ensures { result ≡ date_right (drop at text.now) }
{
    two_digits(text[at], text[at + 1]) && pairs_right(text, at + 2, b'-')
}

// Between date and time.
#[tactic(auto, unfolding(crate::specs::scan::Form::is_separator))]
fn separator(c: u8) -> bool
    ensures { result ≡ is_separator c }
{
    c == b'T' || c == b' '
}

// Thh:mm:ss
#[tactic(auto, using(crate::proofs::Found::starts))]
fn time_right(text: &[u8], at: usize) -> bool
    requires { at + 19 ≤ length text.now }
    ensures { result ≡ time_right (drop at text.now) }
{
    separator(text[at + 10]) && pairs_right(text, at + 11, b':')
}

// One digit more, of which the first 13 count: so no fraction is too long to be read to its end.
fn joined(whole: u64, c: u8, place: usize) -> u64
    requires { whole ≤ 1000000000000000 }
    ensures { result ≡ joined·of whole c place }
{
    if place < 13 {
        10 * whole + worth(c) as u64
    } else {
        whole
    }
}

// The digits from `at` on.
#[tactic(auto, using(crate::proofs::Found::runs))]
fn digits_run(text: &[u8], at: usize, second: u8) -> Run
    requires { (at ≤ length text.now) × (second ≤ 99) }
    ensures { DigitsRun second at text.now result }
{
    let mut whole = second as u64;
    for i in at..text.len() {
        if !digit(text[i]) {
            return Run {
                whole,
                places: i - at,
                end: i,
            };
        }
        whole = joined(whole, text[i], i - at);
    }
    Run {
        whole,
        places: text.len() - at,
        end: text.len(),
    }
}

// The byte at an index, and 0 past the end: no byte that the grammar names.
fn byte_at(text: &[u8], at: usize) -> u8
    ensures { result ≡ get_or text.now at 0 }
{
    text.get(at).copied().unwrap_or(0)
}

// The fraction from `at` on; a point with no digit behind it is none.
pub(crate) fn fraction(text: &[u8], at: usize, second: u8) -> Run
    requires { (at ≤ length text.now) × (second ≤ 99) }
    ensures { FractionRun second at text.now result }
{
    let none = Run {
        whole: second as u64,
        places: 0,
        end: at,
    };
    if byte_at(text, at) != b'.' {
        return none;
    }
    let run = digits_run(text, at + 1, second);
    if run.places == 0 {
        return none;
    }
    run
}

// The index behind a Z, which only a UTC text may have.
// kept: `utc` is a truth value and no closure: this one test stands for it, and `scan_of` and `parsed` of the contracts take it.
fn zone_end(text: &[u8], at: usize, utc: bool) -> usize
    requires { at ≤ length text.now }
    ensures { (result ≤ length text.now)
        × (drop result text.now ≡ cond (zulu_first utc (drop at text.now)) (drop 1 (drop at text.now))
        (drop at text.now)) }
{
    if utc && byte_at(text, at) == b'Z' {
        at + 1
    } else {
        at
    }
}

// Nothing but a zone and blanks from `at` on.
#[tactic(auto, using(crate::proofs::Found::ends), unfolding(crate::specs::scan::Form::end_right))]
pub(crate) fn end_right(text: &[u8], at: usize, utc: bool) -> bool
    requires { at ≤ length text.now }
    ensures { result ≡ end_right utc (drop at text.now) }
{
    blanks_end(text, zone_end(text, at, utc)) == text.len()
}

fn form_at(text: &[u8], at: usize, whole: u64, places: usize) -> Form
    requires { at + 19 ≤ length text.now }
    ensures { result ≡ form_by (drop at text.now) whole places }
{
    Form {
        year: 100 * two(text[at], text[at + 1]) as u16 + two(text[at + 2], text[at + 3]) as u16,
        month: two(text[at + 5], text[at + 6]),
        day: two(text[at + 8], text[at + 9]),
        hour: two(text[at + 11], text[at + 12]),
        minute: two(text[at + 14], text[at + 15]),
        second: two(text[at + 17], text[at + 18]),
        whole,
        places,
    }
}

// What the text says, where it has the right form.
pub fn scan(text: &[u8], utc: bool) -> Result<Form, Refusal>
    ensures { outcome result ≡ scan_of utc text.now }
{
    let at = blanks_end(text, 0);
    if text.len() - at < 19 || !date_right(text, at) || !time_right(text, at) {
        return Err(Refusal::TextOutsideGrammar);
    }
    let run = fraction(text, at + 19, two(text[at + 17], text[at + 18]));
    if !end_right(text, run.end, utc) {
        return Err(Refusal::TextOutsideGrammar);
    }
    Ok(form_at(text, at, run.whole, run.places))
}
