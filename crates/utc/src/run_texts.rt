// The texts of a run of UTC dates in one call, where refused stamps are numbered and counted. The parts of the stamps are bytes, eight each, the lowest first;
// the texts stand at equal distances of 27 bytes.
// kept: the parts stay bytes in two slices, and texts, lengths and numbers three slices, as C lends them (ct_texts_of_run).
ghost use Rattle.std.specs.Prelude.{◌≡◌, ◌+◌, ◌*◌, ◌≤◌, length};
ghost use Rattle.refusals.specs.Outcome.{outcome, number_said};
ghost use Rattle.leap_table.specs.rows.Announced.{rows_of, table_of};
ghost use Rattle.utc.specs.iso_texts.Named.{form_named};
ghost use Rattle.utc.specs.run_texts.RunTexts.{stamp_text, texts_call, texts_refusal, texts_by, texts_of_run};
ghost use Rattle.utc.specs.iso_texts.IsoText.{iso_text_by};
ghost use Rattle.utc.specs.run_texts.Asked.{RoomForTexts, TextBeside, TextPlaced, TextsPlaced};
ghost use Rattle.utc.specs.run_texts.Kept.{RightKept};

use crate::iso_texts::NamedForm;
use kept_day::KeptDay;
use leap_table::rows::AnnouncedRows;
use refusals::Refusal;
use scales::UTC;

mod kept_day;

// What stands beside a stamp's text: its length, 0 where it is refused, and its number, 0 where it is not.
// kept: two numbers and no `Result`, since these are the bytes of `lengths` and `numbers`, which C reads.
#[derive(Clone, Copy)]
struct Beside {
    length: u8,
    number: u8,
}

// What stands beside a stamp's text, and the day that is kept for the next stamp.
#[derive(Clone, Copy)]
struct StampDone {
    beside: Beside,
    kept: KeptDay,
}

// Writes the text of a stamp by the single call.
// kept: `match`, since the refusal becomes the byte of `numbers`, which C reads.
fn put_single(textForm: NamedForm, date: UTC, table: &AnnouncedRows, out: &mut [u8]) -> Beside
    requires { 27 ≤ length out.old }
    ensures { TextBeside (iso_text_by (form_named textForm) (rows_of table.now) date.0) out.old result
        out.new }
{
    match crate::iso_texts::to_text_by_rows(textForm, date, table, out) {
        Ok((n, _)) => Beside {
            length: (n % 256) as u8,
            number: 0,
        },
        Err(refusal) => Beside {
            length: 0,
            number: refusal.byte(),
        },
    }
}

// Writes the text of the stamp at place i, by the day that is kept where it serves.
fn put_stamp(
    textForm: NamedForm,
    jd1s: &[u8],
    jd2s: &[u8],
    i: usize,
    kept: KeptDay,
    table: &AnnouncedRows,
    texts: &mut [u8],
) -> StampDone
    requires { (27 * i + 27 ≤ length texts.old) × RightKept (rows_of table.now) kept }
    ensures { TextPlaced (stamp_text (form_named textForm) (rows_of table.now) jd1s.now
        jd2s.now i) i texts.old result.beside texts.new
        × RightKept (rows_of table.now) result.kept }
{
    let at = 27 * i;
    let end = at + 27;
    let jd = julian::stamp_lists::stamp_of(jd1s, jd2s, i);
    let next = kept_day::next_day(jd.jd1, kept, table);
    if kept_day::put_kept(textForm, jd, next, &mut texts[at..end]) {
        return StampDone {
            beside: Beside {
                length: 23,
                number: 0,
            },
            kept: next,
        };
    }
    let beside = put_single(textForm, UTC(jd), table, &mut texts[at..end]);
    StampDone { beside, kept: next }
}

// Writes the texts of n stamps, and says how many are refused.
fn put_all(
    textForm: NamedForm,
    jd1s: &[u8],
    jd2s: &[u8],
    n: usize,
    table: &AnnouncedRows,
    texts: &mut [u8],
    lengths: &mut [u8],
    numbers: &mut [u8],
) -> usize
    requires { RoomForTexts n jd1s.now texts.old lengths.old numbers.old }
    ensures { TextsPlaced (stamp_text (form_named textForm) (rows_of table.now) jd1s.now
        jd2s.now) n texts.old lengths.old numbers.old result texts.new lengths.new
        numbers.new }
{
    let mut refused = 0;
    let mut kept = kept_day::no_day();
    for i in 0..n {
        let done = put_stamp(textForm, jd1s, jd2s, i, kept, table, texts);
        let beside = done.beside;
        kept = done.kept;
        lengths[i] = beside.length;
        numbers[i] = beside.number;
        if beside.number != 0 {
            refused += 1;
        }
    }
    refused
}

// Whether the lengths go together.
#[tactic(auto, unfolding(crate::specs::run_texts::RunTexts::texts_refusal, refusals::specs::Outcome::number_said, refusals::specs::Refusal::refusal_number))]
fn judge_lengths(
    size1: usize,
    size2: usize,
    room1: usize,
    room2: usize,
    room3: usize,
) -> Result<(), Refusal>
    ensures { number_said result ≡ texts_refusal size1 size2 room1 room2 room3 }
{
    if size1 % 8 != 0 || size2 % 8 != 0 {
        return Err(Refusal::LengthWrong);
    }
    if size1 != size2 {
        return Err(Refusal::SizesDiffer);
    }
    let n = size1 / 8;
    if room1 / 27 < n || room2 < n || room3 < n {
        return Err(Refusal::NoRoom);
    }
    Ok(())
}

// By the rows of a table that is tested elsewhere, and lent on.
pub fn texts_of_run_by_rows(
    textForm: NamedForm,
    jd1s: &[u8],
    jd2s: &[u8],
    table: &AnnouncedRows,
    texts: &mut [u8],
    lengths: &mut [u8],
    numbers: &mut [u8],
) -> Result<usize, Refusal>
    ensures { texts_call (outcome result) texts.new lengths.new numbers.new ≡ texts_by (form_named textForm)
        (rows_of table.now) jd1s.now jd2s.now texts.old lengths.old
        numbers.old }
{
    judge_lengths(
        jd1s.len(),
        jd2s.len(),
        texts.len(),
        lengths.len(),
        numbers.len(),
    )?;
    let n = jd1s.len() / 8;
    Ok(put_all(textForm, jd1s, jd2s, n, table, texts, lengths, numbers))
}

// The texts of a run of UTC dates in the form that is named: the text of stamp i from byte 27 i of `texts` on, its length in byte i of `lengths`, in byte i of
// `numbers` 0 or the number of its refusal, and the number of refused stamps as the answer. Bytes behind a text stay, and all 27 of a refused stamp, whose
// length is 0. Refusals of the whole call in order, before a byte is written: 20 to 22 the table, 14 a length of parts that is no multiple of eight, 12 another
// number of second parts than of first, 11 too few places.
pub fn texts_of_run(
    textForm: NamedForm,
    jd1s: &[u8],
    jd2s: &[u8],
    table: AnnouncedRows,
    texts: &mut [u8],
    lengths: &mut [u8],
    numbers: &mut [u8],
) -> Result<usize, Refusal>
    ensures { texts_call (outcome result) texts.new lengths.new numbers.new ≡ texts_of_run (form_named textForm)
        (table_of table) jd1s.now jd2s.now texts.old lengths.old numbers.old }
{
    leap_table::rows::judge_table(&table)?;
    texts_of_run_by_rows(textForm, jd1s, jd2s, &table, texts, lengths, numbers)
}
