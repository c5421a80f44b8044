// Lists stamp blocks one after the other: they are read from standard input, each behind its length in four bytes. tests/listing/stored writes the input and
// the listings that are due: a good block, an empty one, each refusal, and the longest.
#![tactic(auto)]

ghost use Rattle.std.specs.Prelude.{◌≡◌, length};

// One byte more than the longest block, 8 + 16 * 4000 bytes, so that a block that is too long can be given too.
const BLOCK_SPACE: usize = 64009;

// kept: beside block_io's, as `list` beside its `write_listing`: this program has a loop of its own, so that the gate compares the two (decision 86).
fn block_space() -> [u8; BLOCK_SPACE]
    ensures { 64009 ≡ length result }
{
    [0; BLOCK_SPACE]
}

// The loop of the program utc_listing. The answer is whether the output took the whole listing.
// kept: `loop`, since each part says where the next begins, and no number of parts is known before.
fn list(block: &[u8]) -> bool {
    let mut scratch = io::buffer();
    let table = leap_table::rows::no_rows();
    let mut line = 0;
    loop {
        let part = stamps::next_part_by_rows(
            stamps::Reporting::Numbers,
            block,
            line,
            &table,
            &mut scratch,
        );
        let written = part.written;
        if !io::write_all(1, &scratch[..written]) {
            return false;
        }
        if part.done {
            return true;
        }
        line = part.line;
    }
}

// Reads a block into `space` and lists it. The answer is whether to go on: the input had a whole block that fits, and the output took its listing.
fn list_next(space: &mut [u8]) -> bool {
    let mut head = [0u8; 4];
    if io::read_full(0, &mut head) < 4 {
        return false;
    }
    let len = numerals::little_endian::u32_at(&head, 0) as usize;
    if space.len() < len {
        return false;
    }
    if io::read_full(0, &mut space[..len]) < len {
        return false;
    }
    list(&space[..len])
}

// At most 64 blocks, so that the program ends on an input without an end.
fn main() {
    let mut space = block_space();
    for _ in 0..64u32 {
        if !list_next(&mut space) {
            return;
        }
    }
}
