// Announced leap rows read from a text: lines of a month and TAI-UTC, and the file that the IERS publishes.
#![tactic(auto)]

ghost use Rattle.std.specs.Prelude.{◌≡◌};
ghost use Rattle.leap_lists.specs.Reading.{list_told, read_of};

// the rows that are read, and what is wrong with a line
mod held;
// one line
mod lines;

use leap_table::rows::AnnouncedRows;
use refusals::Refusal;

// What a text says: its rows, and the Modified Julian Date of its expiry, 0 where it tells none.
// kept: 0 and no `Option`, since C reads the number (ct_read_table).
#[derive(Clone, Copy)]
pub struct ListRead {
    pub known_until: u32,
    pub table: AnnouncedRows,
}

// Why a text is refused: the first line at fault, counted from 1, and its refusal.
#[derive(Clone, Copy, Debug, PartialEq, Eq)]
pub struct ListFault {
    pub refusal: Refusal,
    pub line: usize,
}

// The rows of a text that are later than the library's, and its expiry. The first line at fault is told, with its number: 15 outside the grammar; of a row that
// is not later than the library's last, 22 unlike the library's; of a later one 20 more than 16, 21 not later than the one before it, 22 a step other than one
// second up or down.
pub fn read(text: &[u8]) -> Result<ListRead, ListFault>
    ensures { list_told result ≡ read_of text.now }
{
    let mut held = held::none_held();
    for (i, line) in text.split(|c| *c == b'\n').enumerate() {
        let found = lines::read_line(line);
        held::judge(held, found).map_err(|refusal| ListFault {
            refusal,
            line: i + 1,
        })?;
        held::add_line(&mut held, found);
    }
    // kept: two locals: tried, and the borrow checker does not cover an array field that goes straight into a literal
    let months = held.months;
    let seconds = held.seconds;
    let table = AnnouncedRows {
        months_size: held.size,
        seconds_size: held.size,
        months,
        seconds,
    };
    Ok(ListRead {
        known_until: held.known,
        table,
    })
}
