// Replays stored answers: document 01's worked cases, answers of the Rust, and answers of the ERFA filter (ERFA's; for the calls 1 to 7 the C library's).
// Standard input is a list of records of 128 bytes, a request and its answer, as tests/replay_list makes it. Counts the records and those whose answer the port
// does not give.
#![tactic(auto)]

mod calendar_calls;
mod floats_calls;
mod julian_calls;
mod offset_calls;
mod scale_calls;
mod utc_calls;
mod words;

#[derive(Clone, Copy)]
struct Tally {
    replayed: u64,
    differ: u64,
}

// The port's answer to a record's request.
fn answered(call: u64, record: &[u8; 128]) -> words::Answer {
    if call < 20 {
        return floats_calls::answered(call, record);
    }
    if call < 24 {
        return calendar_calls::answered(call, record);
    }
    if call < 27 {
        return julian_calls::calendar_answered(call, record);
    }
    if call < 40 {
        return calendar_calls::answered(call, record);
    }
    if call < 60 {
        return julian_calls::answered(call, record);
    }
    if call < 80 {
        return offset_calls::answered(call, record);
    }
    if call < 120 {
        return scale_calls::answered(call, record);
    }
    utc_calls::answered(call, record)
}

// Whether it is the record's answer.
fn agrees(record: &[u8; 128]) -> bool {
    words::same(answered(words::word_at(record, 0), record), record)
}

fn counted(t: Tally, same: bool) -> Tally {
    Tally {
        replayed: t.replayed.wrapping_add(1),
        differ: t.differ.wrapping_add(u64::from(!same)),
    }
}

// kept: as in sofa_checks' tally, three writes: neither program stands on the other.
fn say(words: &[u8], number: u64) {
    io::write_all(1, words);
    io::print_decimal(1, number);
    io::write_all(1, b"\n");
}

fn main() {
    let mut tally = Tally {
        replayed: 0,
        differ: 0,
    };
    for _ in 0..100000u64 {
        let mut record = [0u8; 128];
        if io::read_full(0, &mut record) < 128 {
            break;
        }
        tally = counted(tally, agrees(&record));
    }
    say(b"answers replayed ", tally.replayed);
    say(b"answers that differ ", tally.differ);
}
