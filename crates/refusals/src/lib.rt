// Refusals, each of which has a number from 1 to 28. 1 to 14 are document 01's, 15 to 28 document 02's. A refusal says its number and nothing else.
#![tactic(auto)]

ghost use Rattle.std.specs.Prelude.{◌≡◌};
ghost use Rattle.refusals.specs.Refusal.{refusal_number};

#[derive(Clone, Copy, Debug, PartialEq, Eq)]
pub enum Refusal {
    // The year is before -4799; of a standby bill, before 1972.
    YearBeforeFirst = 1,
    // The month is not 1 to 12.
    MonthNotInYear = 2,
    // The day is not in the month.
    DayNotInMonth = 3,
    // The hour is above 23, the minute above 59, or the second is not one of its minute; or the millisecond of a bill is over 999.
    TimeNotInDay = 4,
    // No next day: the date is the last that the year's 32 bits can say.
    NoNextDay = 5,
    // The rounded sum of a date's parts is outside -68569.5 to 1e9, or a NaN.
    DateOutOfRange = 6,
    // The fraction of a day is outside 0 to 1, or a NaN.
    FractionNotInDay = 7,
    // The nanoseconds are 1,000,000,000 or more.
    NanosNotInSecond = 8,
    // A part of a date is not finite, of TCG to TAI also one of the TT in between; where dates are put in order, also where the two-sum of the parts overflows.
    PartNotFinite = 9,
    // An offset is not finite.
    OffsetNotFinite = 10,
    // The text, or what else is written, is longer than the buffer.
    NoRoom = 11,
    // The two sizes of a stamp block differ, or those of the lists of a line or of a run.
    SizesDiffer = 12,
    // A stamp block has more than 4,000 stamps, or a line more than 4,294,967,295.
    TooManyStamps = 13,
    // A stamp block's length is not the one that its sizes say; or the length of a table or of a list is wrong, or counts go past it.
    LengthWrong = 14,
    // A text is outside the grammar.
    TextOutsideGrammar = 15,
    // A text's second has more than 13 digits after the point.
    TooManyFractionDigits = 16,
    // A date is earlier than the one before it; or a stamp is left out of a line, since of its run the most that rise are kept.
    OutOfOrder = 17,
    // A field of a GPS week, a date's week or milliseconds since launch are outside their limits; or a run takes no such scale, or no refusal has the number.
    OutOfLimit = 18,
    // Two weeks with the same ten bits are equally near the reference.
    WeekNotDecided = 19,
    // The two sizes of a table of announced rows differ, or are above 16.
    TableSizesWrong = 20,
    // A row of a table of announced rows is not later than the one before it.
    TableNotRising = 21,
    // A row of a table of announced rows steps by something other than one second up or down.
    TableStepWrong = 22,
    // The passes are unequal, too few or too many, or a number in them is too large.
    PassesNotUsable = 23,
    // The passes do not rise strictly in both their lists.
    PassesNotRising = 24,
    // A tick or a reading is outside the passes.
    TickOutsidePasses = 25,
    // The end of a standby is before its start.
    EndBeforeStart = 26,
    // A number of a bill is over its limit.
    BillNumberOverLimit = 27,
    // Both lengths of line are 0.
    BothLengthsZero = 28,
}

impl Refusal {
    // The number by which documents, bytes and C speak of it.
    pub fn number(self) -> u32
        ensures { result ≡ refusal_number self }
    {
        self as u32
    }

    // The same in the one byte that stands beside a stamp of a run, a line or a list.
    pub fn byte(self) -> u8
        ensures { result ≡ refusal_number self }
    {
        self as u8
    }
}
