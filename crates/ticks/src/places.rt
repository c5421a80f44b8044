// The place on the pipe of each reading of a run: its millisecond on the straight line between the marker passes beside it. Lists are bytes: eight for a
// number, the lowest first; a reading's own number is one byte.
ghost use Rattle.std.specs.Prelude.{◌≡◌, ◌≤◌, length};
ghost use Rattle.refusals.specs.Outcome.{outcome, number_said};
ghost use Rattle.ticks.specs.judging.Refusing.{numbers_in};
ghost use Rattle.ticks.specs.Ticks.{passes_of};
ghost use Rattle.ticks.specs.places.Places.{reading_at, places_refusal, places_call, placed_run};
ghost use Rattle.ticks.specs.places.Asked.{HasReading, ReadingPut, HasReadings, ReadingsPut};

use crate::JudgedPasses;
use crate::judging::number_at;
use refusals::Refusal;

// The number of a reading outside the passes.
const OUTSIDE: u8 = Refusal::TickOutsidePasses as u8;

// Judges the whole call.
// kept: apart from judging::judge: here 12 comes between 14 and 11, and 25 refuses no call: it is a reading's number.
fn judge(
    passes: &[u8],
    places: &[u8],
    millis: &[u8],
    count: usize,
    room: usize,
) -> Result<(), Refusal>
    ensures { number_said result ≡ places_refusal passes.now places.now millis.now count room }
{
    if !crate::judging::whole_lists(passes, places, millis) {
        return Err(Refusal::LengthWrong);
    }
    let n = millis.len() / 8;
    if n != count {
        return Err(Refusal::SizesDiffer);
    }
    if room / 8 < n {
        return Err(Refusal::NoRoom);
    }
    crate::judging::judge_passes(passes, places)
}

// The number of a reading, and its neighbour, from which the next is sought.
#[derive(Clone, Copy)]
struct Placed {
    number: u8,
    near: usize,
}

// Places reading i, at millisecond m: its number was `number`, and the last neighbour is j.
fn place_reading(
    passes: &JudgedPasses,
    j: usize,
    number: u8,
    m: u64,
    i: usize,
    out: &mut [u8],
) -> Placed
    requires { HasReading passes.now.ticks.now passes.now.millis.now passes.now.k j i out.old }
    ensures { ReadingPut (passes_of passes.now.ticks.now passes.now.millis.now) passes.now.k number m i out.old result.number
        result.near out.new }
{
    if number != 0 {
        return Placed { number, near: j };
    }
    let first = number_at(passes.ticks, 0);
    let last = number_at(passes.ticks, passes.k + 1);
    if m < first || last < m {
        return Placed {
            number: OUTSIDE,
            near: j,
        };
    }
    let near = crate::neighbour(passes, j, m);
    let place = crate::millis_between(passes, near, m);
    crate::put_number(out, 8 * i, place);
    Placed { number: 0, near }
}

// Places all readings, and says how many have no place.
// kept: apart from crate::place_all, which has neither a number nor a count for a tick.
fn place_all(passes: &JudgedPasses, millis: &[u8], out: &mut [u8], numbers: &mut [u8]) -> usize
    requires { HasReadings passes.now.ticks.now passes.now.millis.now passes.now.k millis.now (numbers_in millis.now) out.old numbers.old }
    ensures { ReadingsPut (reading_at passes.now.ticks.now passes.now.millis.now millis.now numbers.old) (numbers_in millis.now) out.old
        numbers.old result out.new numbers.new }
{
    let n = millis.len() / 8;
    let mut without = 0;
    let mut j = 0;
    for i in 0..n {
        let m = number_at(millis, i);
        let done = place_reading(passes, j, numbers[i], m, i, out);
        let number = done.number;
        j = done.near;
        numbers[i] = number;
        if number != 0 {
            without += 1;
        }
    }
    without
}

// kept: the lists stay bytes, and a reading's number a byte, as C hands them over (ct_place_readings).
// Gives each reading of a run its place: the i-th eight bytes of `out` are the place of the i-th millisecond on the straight line between the passes beside it,
// rounded down. A reading that comes with a number other than 0 keeps it; one outside the passes gets 25; of both the places in `out` stay, and the answer is
// how many they are. Refusals in order: 14 a length that is no multiple of 8; 12 not as many numbers as readings; 11 fewer places than readings; 23 unequal,
// too few or too many passes or too large a number in them; 24 passes not strictly rising in both.
pub fn place_readings(
    passes: &[u8],
    places: &[u8],
    millis: &[u8],
    out: &mut [u8],
    numbers: &mut [u8],
) -> Result<usize, Refusal>
    ensures { places_call (outcome result) out.new numbers.new ≡ placed_run passes.now places.now
        millis.now out.old numbers.old }
{
    judge(passes, places, millis, numbers.len(), out.len())?;
    let judged = JudgedPasses {
        ticks: passes,
        millis: places,
        k: passes.len() / 8 - 2,
    };
    Ok(place_all(&judged, millis, out, numbers))
}
