// Reads UTC texts from standard input, one a line, and answers each by a line.
//
//   utc_reading < TEXTS > ANSWERS
//
// An answer is the text's index and the text of its date, or `refused` and the number. A line ends with byte 10, which is no part of the text; a last line
// without one counts where it has a byte. The program lends no rows.
//
// Proved here: the program is safe, and ends where its input does; what answers a text is proved of `readings::answer_line`; that the lines go out in order is
// tested by what the program prints.
#![tactic(auto)]

use std::io::Read;

// Where the reading stands.
// kept: a flag and no `Option`, since the index goes on beside it, and each step gives all three anew.
#[derive(Clone, Copy)]
struct At {
    // the index of the line that is being read
    index: u64,
    // how many of its bytes are kept; where it has more than can be, the largest number, and no `Option`: one comparison with the space tells both
    kept: usize,
    // whether the input may have more, and the output took all lines so far
    more: bool,
}

// The answer is whether the output took it.
fn put_answer(text: &[u8], index: u64) -> bool {
    let mut out = [0u8; 64];
    let Ok(n) = readings::answer_line(text, index, leap_table::rows::no_rows(), &mut out) else {
        return false;
    };
    io::write_all(1, &out[..n])
}

// A line of more than 4,096 bytes is refused as a text outside the grammar, whatever it holds: as an empty one is.
fn end_line(line: &[u8], at: At) -> bool {
    let kept = at.kept;
    if kept > line.len() {
        return put_answer(b"", at.index);
    }
    put_answer(&line[..kept], at.index)
}

// One byte more of the line, or the line's end.
fn take_byte(c: u8, line: &mut [u8], at: At) -> At {
    if c == b'\n' {
        return At {
            index: at.index.saturating_add(1),
            kept: 0,
            more: end_line(line, at),
        };
    }
    let kept = at.kept;
    if kept < line.len() {
        line[kept] = c;
        return At {
            index: at.index,
            kept: kept + 1,
            more: at.more,
        };
    }
    At {
        index: at.index,
        kept: usize::MAX,
        more: at.more,
    }
}

fn take_bytes(bytes: &[u8], line: &mut [u8], start: At) -> At {
    let mut at = start;
    for c in bytes {
        if !at.more {
            break;
        }
        at = take_byte(*c, line, at);
    }
    at
}

// The end of the input ends a line that was begun.
fn take_end(line: &[u8], at: At) -> At {
    if at.kept > 0 {
        end_line(line, at);
    }
    At {
        index: at.index,
        kept: 0,
        more: false,
    }
}

// A read that fails counts as the end of the input.
// kept: `match`, since a failed read ends the input as an empty one does, and else bytes are taken.
fn read_some<R: Read>(input: &mut R, line: &mut [u8], at: At) -> At {
    let mut space = io::buffer();
    match input.read(&mut space) {
        Err(_) | Ok(0) => take_end(line, at),
        Ok(n) => take_bytes(&space[..n], line, at),
    }
}

// A proved loop has to end, and nothing says that an input does: so the turns are counted, up to a number that no run comes to.
fn main(rt: HostRuntime) {
    let mut input = rt.stdin();
    let mut line = io::buffer();
    let mut at = At {
        index: 0,
        kept: 0,
        more: true,
    };
    for _ in 0..u64::MAX {
        at = read_some(&mut input, &mut line, at);
        if !at.more {
            return;
        }
    }
}
