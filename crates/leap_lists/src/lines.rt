// One line of a text: what it says, or that it is outside the grammar.
ghost use Rattle.std.specs.Prelude.{◌≡◌, IfSome, MatchOption, ◌^◌, ◌≤◌, ◌<◌, length, get_or};
ghost use Rattle.numerals.specs.digits.Decimal.{is_digit, number};
ghost use Rattle.leap_lists.specs.lines.Scan.{line_blank, behind_blanks, first_digits, ended, last_number};
ghost use Rattle.leap_lists.specs.lines.Months.{month_from};
ghost use Rattle.leap_lists.specs.lines.Lines.{row_with, month_row, ntp_row, row_of, expiry_of, line_says};
ghost use Rattle.leap_lists.specs.Held.{InRange};

// January of 1900, and the month after the last that four digits of a year can say.
const FIRST_NTP_MONTH: u32 = 22_800;

const MONTHS_END: u32 = 120_000;

// Seconds of a day, and the Modified Julian Date of 1900-01-01.
const DAY: u64 = 86_400;

const FIRST_NTP_DAY: u32 = 15_020;

// What a line says: nothing; TAI-UTC in whole seconds from a month on, months numbered from January of year 0; or the day until which the table is known.
#[derive(Clone, Copy)]
pub(crate) enum Line {
    Blank,
    Row(u32, u32),
    Expiry(u32),
    Outside,
}

// A space or a tab; at the start and at the end of a line also a carriage return.
#[tactic(auto, unfolding(crate::specs::lines::Scan::line_blank))]
fn blank(c: u8, returns: bool) -> bool
    ensures { result ≡ line_blank returns c }
{
    c == b' ' || c == b'\t' || (returns && c == b'\r')
}

// What is left behind the blanks in front.
// kept: a `for`: by `take_while` and `count` a line behind a thousand blanks took a quarter more instructions.
fn behind_blanks(s: &[u8], returns: bool) -> &[u8]
    ensures { result.now ≡ behind_blanks returns s.now }
{
    for i in 0..s.len() {
        if !blank(s[i], returns) {
            return &s[i..];
        }
    }
    &[]
}

// The byte at an index, and 0 past the end: no byte that the grammar names.
// kept: this and `digit` as in parsing's scan, one call of std each: neither crate stands on the other.
fn byte_at(s: &[u8], at: usize) -> u8
    ensures { result ≡ get_or s.now at 0 }
{
    s.get(at).copied().unwrap_or(0)
}

#[tactic(auto, unfolding(numerals::specs::digits::Decimal::is_digit))]
fn digit(c: u8) -> bool
    ensures { result ≡ is_digit c }
{
    c.is_ascii_digit()
}

// The number of the digits in front, `most` of them at most, and how many they are: 0 of none.
// kept: one loop for both, since a row's digits are read once (a loop for each took a tenth more instructions of a text of sixteen rows).
fn digits(s: &[u8], most: usize) -> (u64, usize)
    requires { most ≤ 12 }
    ensures says { result.0 ≡ number (first_digits most s.now) }
    ensures many { result.1 ≡ length (first_digits most s.now) }
    ensures within { result.1 ≤ length s.now }
{
    let mut value = 0;
    for i in 0..most {
        let c = byte_at(s, i);
        if !digit(c) {
            return (value, i);
        }
        value = 10 * value + (c - b'0') as u64;
    }
    (value, most)
}

// Nothing is left, or a comment.
#[tactic(auto, unfolding(crate::specs::lines::Scan::ended))]
fn ended(s: &[u8]) -> bool
    ensures { result ≡ ended s.now }
{
    s.is_empty() || s[0] == b'#'
}

// The number at the end of a line: a blank or more, at most `most` digits, and the end.
#[tactic(auto, unfolding(crate::specs::lines::Scan::last_number, crate::specs::lines::Scan::number_then))]
fn last_number(s: &[u8], most: usize) -> Option<u64>
    requires { most ≤ 12 }
    ensures says { result ≡ last_number most s.now }
    ensures small { IfSome result (λ n. n < 10 ^ most) }
{
    if !blank(byte_at(s, 0), false) {
        return None;
    }
    let line = behind_blanks(s, false);
    let (value, n) = digits(line, most);
    if n == 0 {
        return None;
    }
    if !ended(behind_blanks(&line[n..], true)) {
        return None;
    }
    Some(value)
}

// The row of a month, with the seconds that end the line.
// kept: `inline(always)`, since a call hands its `Line` back in memory (a text of sixteen rows took a fifth more time).
#[tactic(auto, unfolding(crate::specs::lines::Lines::row_with))]
#[inline(always)]
fn row_with(s: &[u8], month: u32) -> Line
    requires { month < 2147483648 }
    ensures { (result ≡ row_with month s.now) × InRange result }
{
    match last_number(s, 9) {
        Some(seconds) => Line::Row(month, seconds as u32),
        None => Line::Outside,
    }
}

// A row whose year stands before a hyphen, and the month behind it.
#[tactic(auto, unfolding(crate::specs::lines::Lines::month_row))]
fn month_row(year: u64, places: usize, s: &[u8]) -> Line
    requires { places ≡ 4 → year < 10000 }
    ensures { (result ≡ month_row year places s.now) × InRange result }
{
    if places != 4 {
        return Line::Outside;
    }
    let (month, n) = digits(s, 2);
    if n != 2 {
        return Line::Outside;
    }
    if month < 1 || 12 < month {
        return Line::Outside;
    }
    row_with(&s[n..], (12 * year + month - 1) as u32)
}

// The number of the month whose first day is so many days after 1900-01-01.
fn month_from(day: u64) -> Option<u32>
    ensures { MatchOption result (month_from day ≡ 0) (λ m. (month_from day ≡ m) × (0 < m) × (m < 120000)) }
{
    let mut left = day;
    for month in FIRST_NTP_MONTH..MONTHS_END {
        if left == 0 {
            return Some(month);
        }
        let days = calendar::days_in_month((month / 12) as i32, (month % 12 + 1) as i32) as u64;
        if left < days {
            return None;
        }
        left -= days;
    }
    None
}

// A row whose NTP seconds stand in front: they are the midnight that begins a month.
#[tactic(auto, unfolding(crate::specs::lines::Lines::ntp_row))]
fn ntp_row(ntp: u64, places: usize, s: &[u8]) -> Line
    ensures { (result ≡ ntp_row ntp places s.now) × InRange result }
{
    if places == 0 {
        return Line::Outside;
    }
    if ntp % DAY != 0 {
        return Line::Outside;
    }
    match month_from(ntp / DAY) {
        Some(month) => row_with(s, month),
        None => Line::Outside,
    }
}

// A row: a hyphen behind the first digits tells its two kinds apart.
#[tactic(auto, unfolding(crate::specs::lines::Lines::row_of, crate::specs::lines::Lines::row_behind))]
fn row_of(s: &[u8]) -> Line
    ensures { (result ≡ row_of s.now) × InRange result }
{
    let (value, n) = digits(s, 12);
    let rest = &s[n..];
    if byte_at(rest, 0) == b'-' {
        return month_row(value, n, &rest[1..]);
    }
    ntp_row(value, n, rest)
}

// The expiry whose NTP seconds end the line.
#[tactic(auto, unfolding(crate::specs::lines::Lines::expiry_of))]
fn expiry_of(s: &[u8]) -> Line
    ensures { (result ≡ expiry_of s.now) × InRange result }
{
    match last_number(s, 12) {
        Some(ntp) => Line::Expiry((ntp / DAY) as u32 + FIRST_NTP_DAY),
        None => Line::Outside,
    }
}

// What a line says.
#[tactic(auto, unfolding(crate::specs::lines::Lines::line_says, crate::specs::lines::Lines::line_from))]
pub(crate) fn read_line(line: &[u8]) -> Line
    ensures { (result ≡ line_says line.now) × InRange result }
{
    let s = behind_blanks(line, true);
    if !ended(s) {
        return row_of(s);
    }
    if byte_at(s, 1) != b'@' {
        return Line::Blank;
    }
    expiry_of(&s[2..])
}
