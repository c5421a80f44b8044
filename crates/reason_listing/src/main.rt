// Lists the stamp block on standard input, with refusals in sentences.
//
//   reason_listing < BLOCK > LISTING
//
// The listing is that of utc_listing, with the sentence of a refusal, which names what is at fault, in the place of `refused` and its number. The program
// lends no rows.
//
// Proved here: the program is safe, and ends where its input does. That the parts are the listing is a theorem (stamps::listing_laws); that they go out in
// order is tested by what the program prints.
#![tactic(auto)]

use block_io::{BLOCK_SPACE, block_space};
use stamps::Reporting;

const UNREAD: &[u8] = b"reason_listing: the input can't be read\n";

// What standard error is told. A message that standard error does not take is lost.
fn tell(rt: &HostRuntime, message: &[u8]) {
    block_io::write_text(&mut rt.stderr(), message);
}

// What is left of the input: whether there may be more of it, and how many bytes came.
// kept: a flag and no `Option`, since `came` is asked for at the end, where there is no more.
#[derive(Clone, Copy)]
struct Rest {
    more: bool,
    came: u64,
}

fn read_some(rt: &HostRuntime, came: u64) -> Rest {
    let mut space = [0u8; 512];
    let kept = block_io::read_block(&mut rt.stdin(), &mut space);
    if kept.failed {
        tell(rt, UNREAD);
    }
    let bytes = kept.bytes;
    Rest {
        more: bytes == 512,
        came: came.saturating_add(bytes as u64),
    }
}

// Reads to the input's end, and answers how many bytes came. A proved loop has to end, and nothing says that an input does: so the turns are counted, up to
// a number that no run comes to.
fn read_rest(rt: &HostRuntime, start: u64) -> u64 {
    let mut came = start;
    for _ in 0..u64::MAX {
        let rest = read_some(rt, came);
        came = rest.came;
        if !rest.more {
            break;
        }
    }
    came
}

// How many bytes came in all: where the space is full, there may be more than it holds, which is counted and not kept.
fn whole_length(rt: &HostRuntime, kept: usize) -> u64 {
    let came = kept as u64;
    if kept == BLOCK_SPACE {
        return read_rest(rt, came);
    }
    came
}

// The program lends no rows. Where the output takes no more, the program says so and ends: what it wrote until then has its last line cut short, or ends with a
// whole line.
fn main(rt: HostRuntime) {
    let mut space = block_space();
    let kept = block_io::read_block(&mut rt.stdin(), &mut space);
    if kept.failed {
        tell(&rt, UNREAD);
    }
    let len = kept.bytes;
    let reporting = Reporting::Sentences(whole_length(&rt, len));
    let sent = block_io::write_listing(&mut rt.stdout(), reporting, &space[..len]);
    if !sent.all {
        tell(&rt, b"reason_listing: the listing can't be written\n");
    }
}
