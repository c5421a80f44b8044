// The stamp block and its listing, where refused stamps are counted.
#![tactic(auto)]

mod listing;
mod place;
mod reported;

ghost use Rattle.std.specs.Prelude.{◌≡◌, ◌≤◌, ◌<◌};
ghost use Rattle.refusals.specs.Outcome.{outcome};
ghost use Rattle.stamps.specs.Block.{block_of, stamp_at};

use julian::JulianDate;
pub use listing::{next_part, next_part_by_rows};
use refusals::Refusal;

// How a listing reports a refusal: by its number, or by its sentence. Of a refused block the sentence may name how many bytes came in all, of which the block
// has the first.
// kept: an enum and no closures: each caller names its variant, and `PartPlaced` and the theorems above it speak of it; three matches stand for it, the room
// of a line, the refusal of a date and that of a block, so that three closures would travel in its place.
#[derive(Clone, Copy)]
pub enum Reporting {
    Numbers,
    Sentences(u64),
}

// What `next_part` put into the scratch: how many bytes, which line comes next, and whether the listing ends here.
// kept: a flag and no `Option`, since the last part has bytes and a line too.
#[derive(Clone, Copy)]
pub struct Part {
    pub written: usize,
    pub line: usize,
    pub done: bool,
}

// How many stamps the block has. Refusals in order: 14 under 8 bytes, 12, 13, then 14.
#[tactic(auto, unfolding(crate::specs::Block::block_of, refusals::specs::Outcome::outcome, refusals::specs::Refusal::refusal_number))]
pub fn block_stamps(block: &[u8]) -> Result<usize, Refusal>
    ensures { outcome result ≡ block_of block.now }
{
    if block.len() < 8 {
        return Err(Refusal::LengthWrong);
    }
    let size = numerals::little_endian::u32_at(block, 0);
    let second_size = numerals::little_endian::u32_at(block, 4);
    if size != second_size {
        return Err(Refusal::SizesDiffer);
    }
    if size > 4000 {
        return Err(Refusal::TooManyStamps);
    }
    let stamps = size as usize;
    if block.len() != 8 + 16 * stamps {
        return Err(Refusal::LengthWrong);
    }
    Ok(stamps)
}

// Stamp i of a block with so many stamps.
// kept: `stamps` beside the block: block_stamps reads and judges it once, and each stamp's place goes by it.
#[tactic(auto, unfolding(crate::specs::Block::jd1_bits, crate::specs::Block::jd2_bits, crate::specs::Block::stamp_at))]
pub(crate) fn stamp_at(block: &[u8], stamps: usize, i: usize) -> JulianDate
    requires { (i < stamps) × (stamps ≤ 4000) }
    ensures { result ≡ stamp_at block.now stamps i }
{
    let jd1 = numerals::little_endian::u64_at(block, 8 + 8 * i);
    let jd2 = numerals::little_endian::u64_at(block, 8 + 8 * stamps + 8 * i);
    JulianDate {
        jd1: floats::from_bits(jd1),
        jd2: floats::from_bits(jd2),
    }
}
