// The stamp block: how many stamps it has, and its listing in parts.
ghost use Rattle.std.specs.Prelude.{◌≡◌, length};
ghost use Rattle.refusals.specs.Outcome.{onward};
ghost use Rattle.stamps.specs.Block.{block_of};
ghost use Rattle.stamps.specs.Listing.{line_room};
ghost use Rattle.stamps.specs.Widths.{InWidth};
ghost use Rattle.c_answers.specs.table.TableBytes.{table_bytes};
ghost use Rattle.c_answers.specs.Delivery.{code, Delivered};
ghost use Rattle.capi.specs.ListingPart.{listing_part, first_listing, second_listing};

use c_answers::refused;
use c_answers::table::{announced_rows_at, judge_table};
use refusals::Refusal;
use stamps::Reporting;

#[unsafe(no_mangle)]
pub extern "C" fn ct_block_stamps(block: &[u8]) -> i64
    ensures { result ≡ code (block_of block.now) }
{
    match stamps::block_stamps(block) {
        Ok(n) => n as i64,
        Err(refusal) => refused(refusal),
    }
}

// A part of the listing by the table's rows; 11 where the buffer has not the room of a line.
fn deliver_part(
    reporting: Reporting,
    room: usize,
    block: &[u8],
    line: u32,
    table: &[u8],
    out: &mut [u8],
) -> i64
    requires { (room ≡ line_room reporting) × InWidth reporting block.now }
    ensures { Delivered (onward (table_bytes table.now)
        (λ rows. listing_part reporting rows block.now line (length out.old)))
        out.old result out.new }
{
    let rows = announced_rows_at(table);
    if let Err(refusal) = judge_table(table.len(), rows) {
        return refused(refusal);
    }
    if out.len() < room {
        return refused(Refusal::NoRoom);
    }
    let part = stamps::next_part_by_rows(reporting, block, line as usize, &rows, out);
    let n = part.written;
    n as i64
}

#[tactic(auto, unfolding(stamps::specs::Listing::line_room, stamps::specs::Widths::Wide))]
#[unsafe(no_mangle)]
pub extern "C" fn ct_listing_part(block: &[u8], line: u32, table: &[u8], out: &mut [u8]) -> i64
    ensures { Delivered (first_listing table.now block.now line (length out.old)) out.old result
        out.new }
{
    deliver_part(Reporting::Numbers, 33, block, line, table, out)
}

// The second listing: refusals are reported in sentences. `input_len` is how many bytes came in all, of which the block has the first.
#[unsafe(no_mangle)]
pub extern "C" fn ct_reason_listing_part(
    block: &[u8],
    input_len: u64,
    line: u32,
    table: &[u8],
    out: &mut [u8],
) -> i64
    ensures { Delivered (second_listing input_len table.now block.now line (length out.old)) out.old result
        out.new }
{
    deliver_part(Reporting::Sentences(input_len), 64, block, line, table, out)
}
