// A stamp block from a reader and its listing to a writer: what the listing programs share.
#![tactic(auto)]

ghost use Rattle.std.specs.Prelude.{◌≡◌, length};
ghost use Rattle.io.specs.Counts.{IsPrefixLen};
ghost use Rattle.block_io.specs.Sent.{SentOf};

use stamps::Reporting;
use std::io::{Read, Write};

// Through so many bytes the lines go out; a line has at most 33, and 64 where sentences are reported.
const SCRATCH: usize = 64;

// One byte more than the longest block, 8 + 16 * 4000 bytes, so that a longer input is noticed.
pub const BLOCK_SPACE: usize = 64009;

// What came of the input: how many bytes are kept, and whether a read failed.
// kept: a flag and no `Result`, since the bytes that came before a failed read are listed as any others.
#[derive(Clone, Copy)]
pub struct Kept {
    pub bytes: usize,
    pub failed: bool,
}

// How many lines of a listing the output took, and whether these are all.
// kept: a flag and no `Result`, since `lines` says the same of a listing that was cut short (specs/Sent).
#[derive(Clone, Copy)]
pub struct Sent {
    pub lines: usize,
    pub all: bool,
}

// The space that a block is read into.
pub fn block_space() -> [u8; BLOCK_SPACE]
    ensures { 64009 ≡ length result }
{
    [0; BLOCK_SPACE]
}

// Reads until `space` is full, the input ends or a read fails.
// kept: `match` with three arms, since a failed read, the input's end and bytes go on in three ways.
pub fn read_block<R: Read>(input: &mut R, space: &mut [u8]) -> Kept
    ensures { IsPrefixLen result.bytes space.new }
{
    let mut done = 0;
    // kept: a `while`, since a turn goes on by as many bytes as came, and no number of turns is known before.
    while done < space.len() {
        match input.read(&mut space[done..]) {
            Err(_) => {
                return Kept {
                    bytes: done,
                    failed: true,
                };
            }
            Ok(0) => break,
            Ok(more) => done += more,
        }
    }
    Kept {
        bytes: done,
        failed: false,
    }
}

// Writes `text`, and answers how many of its bytes the output took: all, unless it takes no more.
pub fn write_text<W: Write>(output: &mut W, text: &[u8]) -> usize
    ensures { IsPrefixLen result text.now }
{
    let mut done = 0;
    // kept: a `while`, since a turn goes on by as many bytes as were taken; and one arm for a failed write and for one that took nothing: both end the writing.
    while done < text.len() {
        let rest = &text[done..];
        match output.write(rest) {
            Err(_) | Ok(0) => break,
            Ok(put) => done += put,
        }
    }
    done
}

// Writes the listing of a block by the fixed table, part by part through so many bytes. It ends before the last line where the output takes no more.
// kept: `loop`, since each part says where the next begins, and no number of parts is known before.
pub fn write_listing<W: Write>(output: &mut W, reporting: Reporting, block: &[u8]) -> Sent
    ensures { SentOf block.now result }
{
    let mut scratch = [0u8; SCRATCH];
    let table = leap_table::rows::no_rows();
    let mut line = 0;
    loop {
        let part = stamps::next_part_by_rows(reporting, block, line, &table, &mut scratch);
        let written = part.written;
        if write_text(output, &scratch[..written]) < written {
            return Sent {
                lines: line,
                all: false,
            };
        }
        line = part.line;
        if part.done {
            return Sent {
                lines: line,
                all: true,
            };
        }
    }
}
