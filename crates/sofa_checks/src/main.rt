// SOFA's published check values, over the C interface: as ERFA's test program has them, compared within SOFA's tolerances. SOFA's status is the sign of the
// code that a call returns.
#![tactic(auto)]

mod calendar_checks;
mod scale_checks;
mod tally;
mod utc_checks;

fn main() {
    let calendar = calendar_checks::checked(tally::start());
    let scales = scale_checks::checked(calendar);
    let utc = utc_checks::checked(scales);
    tally::say(b"published values ", utc.compared);
    tally::say(b"outside their tolerance ", utc.outside);
}
