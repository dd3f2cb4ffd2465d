//! Why a call was refused.
ghost use Rattle.std.specs.Prelude.{◌≡◌, Some};
ghost use Rattle.kinds.specs.Refusals.{number_of, date_of, offset_of, reason_of};
ghost use Rattle.kinds.specs.Texts.{grounded};

use crate::dates::Date;
use std::fmt;

/// Why a call was refused: one case for each ground, with the date of the day in question or
/// the offset into the file where one belongs.
#[derive(Clone, Copy, PartialEq, Eq, Debug)]
pub enum Refusal {
    /// The account has ended.
    Ended,
    /// All 120 months of the account are booked.
    LifeOver,
    /// Another count of readings or members than the account has or can have.
    WrongCount,
    /// The account has no such member.
    NoSuchMember,
    /// The opening is not on a 1st of 2000 to 2089.
    WrongOpening,
    /// The month of a rule is outside 2000 to 2099.
    WrongMonth,
    /// A series has another length than its month asks for.
    WrongSeries,
    /// The month before still awaits its closing.
    MonthAwaits,
    /// The endowment of the month before is still owed.
    EndowmentOwed,
    /// No month awaits its closing.
    NothingToClose,
    /// An endowment is booked from the 20th on.
    BeforeTwentieth,
    /// A booked day is in no closed month.
    DaysNotClosed,
    /// The endowment is not the one that is owed.
    OtherEndowment,
    /// An endowment is owed, and none was handed in.
    EndowmentMissing,
    /// A reading is beyond 10,000,000 kWh either way.
    ReadingTooLarge(Date),
    /// The readings add up to beyond 100,000,000 kWh either way.
    ReadingsTooLarge(Date),
    /// The gap move is above the size of the pool's gap level.
    MoveAboveLevel(Date),
    /// The gap move is above the day's slope.
    MoveAboveSlope(Date),
    /// The band rule has no bands for the day.
    NoBands(Date),
    /// The price rule has no prices for the day.
    NoPrices(Date),
    /// A member's carried balance would be beyond 10,000,000 kWh either way.
    CarriedTooLarge(Date),
    /// A sharing has more than 40 claims.
    TooManyClaims,
    /// A claim is beyond 10,000,000,000 either way.
    ClaimTooLarge,
    /// The amount, or the numerator of the fraction, is above 20,000,000,000.
    NumeratorTooLarge,
    /// The denominator of the fraction is 0 or above 1,000,000,000,000.
    DenominatorOutOfRange,
    /// The amount or numerator times the sum of the sizes of the claims is above 9,000,000,000,000,000,000.
    ProductTooLarge,
    /// An amount is to be shared, and all weights are nil.
    NoWeight,
    /// A term of a rule is out of its range.
    TermOutOfRange,
    /// A cumulable band is above the allowed band of its side.
    BandOrder,
    /// The day file breaks the format in the header or record at this offset.
    BrokenFile(usize),
    /// The statement does not fit into the buffer.
    StatementTooLong,
}

impl Refusal {
    /// The number under which the ground is known.
    // A number and not an enum: the outside knows refusals by these numbers, which never change.
    pub fn number(self) -> u8
        ensures { result ≡ number_of self }
    {
        match self {
            Refusal::Ended | Refusal::LifeOver => 1,
            Refusal::WrongCount
            | Refusal::NoSuchMember
            | Refusal::WrongOpening
            | Refusal::WrongMonth
            | Refusal::WrongSeries => 2,
            Refusal::MonthAwaits
            | Refusal::EndowmentOwed
            | Refusal::NothingToClose
            | Refusal::BeforeTwentieth
            | Refusal::DaysNotClosed => 3,
            Refusal::OtherEndowment | Refusal::EndowmentMissing => 4,
            Refusal::ReadingTooLarge(_) => 5,
            Refusal::ReadingsTooLarge(_) => 6,
            Refusal::MoveAboveLevel(_) => 7,
            Refusal::MoveAboveSlope(_) => 8,
            Refusal::NoBands(_) => 9,
            Refusal::NoPrices(_) => 10,
            Refusal::CarriedTooLarge(_) => 11,
            Refusal::TooManyClaims
            | Refusal::ClaimTooLarge
            | Refusal::NumeratorTooLarge
            | Refusal::DenominatorOutOfRange
            | Refusal::ProductTooLarge
            | Refusal::NoWeight => 12,
            Refusal::TermOutOfRange | Refusal::BandOrder => 13,
            Refusal::BrokenFile(_) => 14,
            Refusal::StatementTooLong => 15,
        }
    }

    /// The date of the day in question, where one belongs.
    pub fn date(self) -> Option<Date>
        ensures { result ≡ date_of self }
    {
        match self {
            Refusal::ReadingTooLarge(date)
            | Refusal::ReadingsTooLarge(date)
            | Refusal::MoveAboveLevel(date)
            | Refusal::MoveAboveSlope(date)
            | Refusal::NoBands(date)
            | Refusal::NoPrices(date)
            | Refusal::CarriedTooLarge(date) => Some(date),
            _ => None,
        }
    }

    /// The offset into the day file, where one belongs.
    pub fn offset(self) -> Option<usize>
        ensures { result ≡ offset_of self }
    {
        match self {
            Refusal::BrokenFile(offset) => Some(offset),
            _ => None,
        }
    }

    /// The ground in plain words.
    pub fn reason(self) -> &'static str
        ensures { result.now ≡ reason_of self }
    {
        match self {
            Refusal::Ended => "the account has ended",
            Refusal::LifeOver => "all 120 months of the account are booked",
            Refusal::WrongCount => "the count of members or readings is wrong",
            Refusal::NoSuchMember => "the account has no such member",
            Refusal::WrongOpening => "an account opens on a 1st of 2000 to 2089",
            Refusal::WrongMonth => "the month of a rule is outside 2000 to 2099",
            Refusal::WrongSeries => "a series has another length than its month asks for",
            Refusal::MonthAwaits => "the month before still awaits its closing",
            Refusal::EndowmentOwed => "the endowment of the month before is still owed",
            Refusal::NothingToClose => "no month awaits its closing",
            Refusal::BeforeTwentieth => "an endowment is booked from the 20th on",
            Refusal::DaysNotClosed => "a booked day is in no closed month",
            Refusal::OtherEndowment => "the endowment is not the one that is owed",
            Refusal::EndowmentMissing => "an endowment is owed and none was handed in",
            Refusal::ReadingTooLarge(_) => "a reading is beyond 10,000,000 kWh",
            Refusal::ReadingsTooLarge(_) => "the readings add up to beyond 100,000,000 kWh",
            Refusal::MoveAboveLevel(_) => "the gap move is above the size of the gap level",
            Refusal::MoveAboveSlope(_) => "the gap move is above the slope",
            Refusal::NoBands(_) => "the band rule has no bands for the day",
            Refusal::NoPrices(_) => "the price rule has no prices for the day",
            Refusal::CarriedTooLarge(_) => "a member's carried balance is beyond 10,000,000 kWh",
            Refusal::TooManyClaims => "a sharing takes at most 40 claims",
            Refusal::ClaimTooLarge => "a claim is beyond 10,000,000,000",
            Refusal::NumeratorTooLarge => "the amount or numerator is above 20,000,000,000",
            Refusal::DenominatorOutOfRange => "the denominator is not 1 to 1,000,000,000,000",
            Refusal::ProductTooLarge =>
                "the amount or numerator times the sum of the sizes is above 9,000,000,000,000,000,000",
            Refusal::NoWeight => "an amount cannot be shared over weights that are all nil",
            Refusal::TermOutOfRange => "a term is out of its range",
            Refusal::BandOrder => "a cumulable band is above the allowed band of its side",
            Refusal::BrokenFile(_) => "the day file is broken",
            Refusal::StatementTooLong => "the statement does not fit into the buffer",
        }
    }
}

/// The number, the day or the offset where one belongs, and the reason.
impl fmt::Display for Refusal {
    ghost output = { λ r. Some (grounded r) };

    fn fmt<W: fmt::Write>(&self, f: &mut fmt::Formatter<W>) -> fmt::Result {
        let number = self.number();
        let reason = self.reason();
        match (self.date(), self.offset()) {
            (Some(date), _) => write!(f, "{number} {date} {reason}"),
            (None, Some(offset)) => write!(f, "{number} at {offset} {reason}"),
            (None, None) => write!(f, "{number} {reason}"),
        }
    }
}
