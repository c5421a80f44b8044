// The dates of a run of UTC texts in one call, where refused texts are numbered and counted. The texts stand at equal distances of 27 bytes, as
// `utc::run_texts` writes them; the parts of the dates are bytes, eight each, the lowest first.
// kept: texts, lengths and numbers three slices, and the parts bytes in two, as C lends them (ct_dates_of_texts).
ghost use Rattle.std.specs.Prelude.{◌≡◌};
ghost use Rattle.refusals.specs.Outcome.{outcome, number_said};
ghost use Rattle.leap_table.specs.rows.Announced.{rows_of, table_of};
ghost use Rattle.runs.specs.by_formula.Run.{run_call};
ghost use Rattle.runs.specs.by_formula.Asked.{HasPlace, StampPut, RunPut};
ghost use Rattle.parsing.specs.run_dates.RunDates.{text_date, dates_refusal, dates_by, dates_of_texts};
ghost use Rattle.parsing.specs.run_dates.Asked.{RoomForDates, TextThere};
ghost use Rattle.parsing.specs.run_dates.Kept.{RightForTexts};

use julian::JulianDate;
use kept_day::KeptDay;
use leap_table::rows::AnnouncedRows;
use refusals::Refusal;
use runs::by_formula::one_if_refused;

mod kept_day;

// kept: beside runs::put_answer, which says the same of places that are there: a public function has no `requires`, and a test would cost each stamp there.
// Both parts of a date in the places of text i, and its number: 0, or that of the refusal, of which the places stay.
// kept: `match`, since the refusal becomes the byte of `numbers`, which C reads.
fn put_date(found: Result<JulianDate, Refusal>, i: usize, out1: &mut [u8], out2: &mut [u8]) -> u8
    requires { HasPlace i out1.old out2.old }
    ensures { StampPut (outcome found) i out1.old out2.old result out1.new out2.new }
{
    match found {
        Err(refusal) => refusal.byte(),
        Ok(jd) => {
            numerals::little_endian::put_nth_u64(out1, i, floats::to_bits(jd.jd1));
            numerals::little_endian::put_nth_u64(out2, i, floats::to_bits(jd.jd2));
            0
        }
    }
}

// The number of a text, and the day that is kept for the next text.
// kept: a byte and no `Result`: it goes into `numbers`, which C reads (ct_dates_of_texts).
#[derive(Clone, Copy)]
struct AfterText {
    number: u8,
    kept: Option<KeptDay>,
}

// Reads text i, by the day that is kept where it serves. A text of more than 27 bytes does not fit its place: it is outside the grammar.
fn read_one(
    texts: &[u8],
    lengths: &[u8],
    i: usize,
    kept: Option<KeptDay>,
    table: &AnnouncedRows,
    out1: &mut [u8],
    out2: &mut [u8],
) -> AfterText
    requires { HasPlace i out1.old out2.old × TextThere i texts.now lengths.now × RightForTexts (rows_of table.now) kept }
    ensures { StampPut (text_date (rows_of table.now) texts.now lengths.now i) i
        out1.old out2.old result.number out1.new out2.new
        × RightForTexts (rows_of table.now) result.kept }
{
    let long = lengths[i] as usize;
    if long > 27 {
        return AfterText {
            number: Refusal::TextOutsideGrammar.byte(),
            kept,
        };
    }
    let at = 27 * i;
    let end = at + long;
    let read = kept_day::read_text(&texts[at..end], kept, table);
    let found = read.found;
    let next = read.kept;
    let number = put_date(found, i, out1, out2);
    AfterText { number, kept: next }
}

// Reads n texts, and says how many are refused.
#[tactic(auto, using(crate::proofs::Found::reads))]
fn read_all(
    texts: &[u8],
    lengths: &[u8],
    n: usize,
    table: &AnnouncedRows,
    out1: &mut [u8],
    out2: &mut [u8],
    numbers: &mut [u8],
) -> usize
    requires { RoomForDates n texts.now lengths.now out1.old out2.old numbers.old }
    ensures { RunPut (text_date (rows_of table.now) texts.now lengths.now) n
        out1.old out2.old numbers.old result out1.new out2.new numbers.new }
{
    let mut refused = 0;
    let mut kept = None;
    for i in 0..n {
        let done = read_one(texts, lengths, i, kept, table, out1, out2);
        kept = done.kept;
        numbers[i] = done.number;
        refused += one_if_refused(done.number);
    }
    refused
}

// Whether the lengths go together.
#[tactic(auto, unfolding(crate::specs::run_dates::RunDates::dates_refusal, refusals::specs::Outcome::number_said, refusals::specs::Refusal::refusal_number))]
fn judge_lengths(
    size1: usize,
    size2: usize,
    room1: usize,
    room2: usize,
    room3: usize,
) -> Result<(), Refusal>
    ensures { number_said result ≡ dates_refusal size1 size2 room1 room2 room3 }
{
    if size1 % 27 != 0 {
        return Err(Refusal::LengthWrong);
    }
    if size1 / 27 != size2 {
        return Err(Refusal::SizesDiffer);
    }
    if room1 / 8 < size2 || room2 / 8 < size2 || room3 < size2 {
        return Err(Refusal::NoRoom);
    }
    Ok(())
}

// By the rows of a table that is tested elsewhere.
#[tactic(auto, using(crate::proofs::Found::calls))]
pub fn dates_of_texts_by_rows(
    texts: &[u8],
    lengths: &[u8],
    table: &AnnouncedRows,
    out1: &mut [u8],
    out2: &mut [u8],
    numbers: &mut [u8],
) -> Result<usize, Refusal>
    ensures { run_call (outcome result) out1.new out2.new numbers.new ≡ dates_by
        (rows_of table.now) texts.now lengths.now out1.old out2.old
        numbers.old }
{
    judge_lengths(
        texts.len(),
        lengths.len(),
        out1.len(),
        out2.len(),
        numbers.len(),
    )?;
    let n = lengths.len();
    Ok(read_all(texts, lengths, n, table, out1, out2, numbers))
}

// kept: the test of the table and the call by its rows, as every call by a table has them: two steps, which are functions already.
// The dates of a run of UTC texts: text i has as many bytes from byte 27 i of `texts` on as byte i of `lengths` says, 15 where that is above 27. The two parts
// of its date go into the places i of `out1` and `out2`, into byte i of `numbers` 0 or the number of its refusal, and the number of refused texts is the
// answer. A refused text's places stay. Refusals of the whole call in order, before a byte is written: 20 to 22 the table, 14 a length of texts that is no
// multiple of 27, 12 another number of lengths than of texts, 11 too few places.
#[tactic(auto, using(crate::proofs::Found::tested))]
pub fn dates_of_texts(
    texts: &[u8],
    lengths: &[u8],
    table: AnnouncedRows,
    out1: &mut [u8],
    out2: &mut [u8],
    numbers: &mut [u8],
) -> Result<usize, Refusal>
    ensures { run_call (outcome result) out1.new out2.new numbers.new ≡ dates_of_texts (table_of table) texts.now
        lengths.now out1.old out2.old numbers.old }
{
    leap_table::rows::judge_table(&table)?;
    dates_of_texts_by_rows(texts, lengths, &table, out1, out2, numbers)
}
