// Lists the stamp block on standard input, with refusals by number.
//
//   utc_listing < BLOCK > LISTING
//
// A block is two sizes of 4 bytes, all first parts and all second parts as 64-bit floats, the lowest byte first. The first line counts the stamps and the
// refused ones, and each stamp has a line: its index and its UTC text, or `refused` and a number. A block that is refused has one line alone. The program
// lends no rows.
//
// Proved here: the program is safe and ends. That the parts are the listing is a theorem (stamps::listing_laws); that they go out in order is tested by what
// the program prints.
#![tactic(auto)]

use block_io::{BLOCK_SPACE, block_space};
use stamps::Reporting;
use std::io::Write;

// What standard error is told. A message that standard error does not take is lost.
fn tell<W: Write>(errors: &mut W, message: &[u8]) {
    block_io::write_text(errors, message);
}

fn tell_left_over<W: Write>(errors: &mut W, len: usize) {
    if len == BLOCK_SPACE {
        tell(
            errors,
            b"utc_listing: the input is longer than any block, and its end was not read\n",
        );
    }
}

// The program lends no rows. Where the output takes no more, the program says so and ends: what it wrote until then has its last line cut short, or ends with a
// whole line.
fn main(rt: HostRuntime) {
    let mut space = block_space();
    let mut errors = rt.stderr();
    let kept = block_io::read_block(&mut rt.stdin(), &mut space);
    if kept.failed {
        tell(&mut errors, b"utc_listing: the input can't be read\n");
    }
    let len = kept.bytes;
    tell_left_over(&mut errors, len);
    let sent = block_io::write_listing(&mut rt.stdout(), Reporting::Numbers, &space[..len]);
    if !sent.all {
        tell(&mut errors, b"utc_listing: the listing can't be written\n");
    }
}
