//! Rules, known by what they answer for each date.
ghost use Rattle.std.specs.Prelude.{◌≡◌, Option};
ghost use Rattle.kinds.specs.declared.dates.Date.{Date};
ghost use Rattle.rules.specs.Monthly.{on_date};
ghost use Rattle.rules.specs.declared.rules.Either.TheVariants.{This, That};

use crate::monthly::Monthly;
use kinds::Date;

/// A rule that has one `T` or none for each date. A band rule is a `Rule<Bands>`, a price rule a
/// `Rule<Prices>`.
pub trait Rule<T> {
    /// What it answers for each date.
    ghost answers: { Self → Date → Option T };

    /// What it has for a date; asking leaves what the rule answers as it was.
    fn ask(&mut self, date: Date) -> Option<T>
        ensures answer { result ≡ answers self.old date }
        ensures kept { answers self.new ≡ answers self.old };
}

/// The same on every date, or none on every date.
#[derive(Clone, Copy, PartialEq, Eq, Debug)]
pub struct Fixed<T> {
    pub value: Option<T>,
}

impl<T: Copy> Rule<T> for Fixed<T> {
    ghost answers = { λ s _. s.value };

    fn ask(&mut self, _date: Date) -> Option<T> {
        self.value
    }
}

impl<T: Copy> Rule<T> for Monthly<T> {
    ghost answers = { λ s d. on_date s.month s.days.items d };

    fn ask(&mut self, date: Date) -> Option<T> {
        self.on(date)
    }
}

/// One of two kinds of rule, so that one list of calls can mix them.
// Not that of the crate `either`: a dependency for two names, and the enum belongs to the rules.
#[derive(Drop, PartialEq, Eq, Debug)]
pub enum Either<R, S> {
    This(R),
    That(S),
}

impl<T, R: Rule<T>, S: Rule<T>> Rule<T> for Either<R, S> {
    ghost answers = { λ s. elim s [ This r ↦ R.answers r | That r ↦ S.answers r ] };

    fn ask(&mut self, date: Date) -> Option<T> {
        match self {
            Either::This(rule) => rule.ask(date),
            Either::That(rule) => rule.ask(date),
        }
    }
}
