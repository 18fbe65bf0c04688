// What every call shares: the limits, the refusal with its number and place, the four numberings kept apart, and the marker.
#![tactic(auto)]

ghost use Rattle.std.specs.Prelude.{◌≡◌, Some, decimal};
ghost use Rattle.refusal.specs.Answer.{condition_number, refused_at, refused_by, number_of, place_of, by_of, value_of};
ghost use Rattle.refusal.specs.Words.{refusal_words};

use std::fmt;

// A run has at most this many steps.
pub const MOST_STEPS: usize = 4096;

// An unfolding has at most this many conditions, and as many events.
pub const MOST_UNFOLDED: u32 = 65535;

// The number of an event of the table.
#[derive(Clone, Copy)]
pub struct TableEvent(pub u16);

// The number of an event of the unfolding.
#[derive(Clone, Copy)]
pub struct UnfoldedEvent(pub u16);

// The number of a condition of the table.
#[derive(Clone, Copy)]
pub struct TableCondition(pub u16);

// The number of a condition of the unfolding.
#[derive(Clone, Copy)]
pub struct UnfoldedCondition(pub u16);

// A condition that stopped a step: one of the table or one of the unfolding.
#[derive(Clone, Copy)]
pub enum Condition {
    Table(TableCondition),
    Unfolded(UnfoldedCondition),
}

impl Condition {
    // Its number, in the numbering that it belongs to.
    pub fn number(self) -> u16
        ensures { result ≡ condition_number self }
    {
        match self {
            Condition::Table(b) => b.0,
            Condition::Unfolded(b) => b.0,
        }
    }
}

impl fmt::Display for Condition {
    ghost output = { λ c. Some (decimal (condition_number c)) };

    fn fmt<W: fmt::Write>(&self, f: &mut fmt::Formatter<W>) -> fmt::Result {
        write!(f, "{}", self.number())
    }
}

// Why a call is refused, by number, and where; beside it the condition that stopped a step, for the numbers 11 and 12 alone.
#[derive(Clone, Copy)]
pub struct Refusal {
    pub number: u8,
    pub place: usize,
    pub by: Option<Condition>,
}

impl fmt::Display for Refusal {
    ghost output = { λ refusal. Some (refusal_words refusal) };

    fn fmt<W: fmt::Write>(&self, f: &mut fmt::Formatter<W>) -> fmt::Result {
        let Refusal { number, place, by } = *self;
        write!(f, "refused {number} at {place}")?;
        match by {
            Some(condition) => write!(f, " by {condition}"),
            None => Ok(()),
        }
    }
}

// What marked a persistent condition: the start, or an event of the table.
#[derive(Clone, Copy)]
pub enum Marker {
    Start,
    ByEvent(TableEvent),
}

// The refusal as an answer, with no condition.
pub fn refused<T>(number: u8, place: usize) -> Result<T, Refusal>
    ensures { result ≡ refused_at number place }
{
    refused_by(number, place, None)
}

// The refusal as an answer, with what stopped a step.
pub fn refused_by<T>(number: u8, place: usize, by: Option<Condition>) -> Result<T, Refusal>
    ensures { result ≡ refused_by number place by }
{
    Err(Refusal { number, place, by })
}

// The number of an answer: 0 where it is fine.
pub fn number_of(answer: Result<usize, Refusal>) -> u8
    ensures { result ≡ number_of answer }
{
    match answer {
        Ok(_) => 0,
        Err(refusal) => refusal.number,
    }
}

// The place of an answer: 0 where it is fine.
pub fn place_of(answer: Result<usize, Refusal>) -> usize
    ensures { result ≡ place_of answer }
{
    match answer {
        Ok(_) => 0,
        Err(refusal) => refusal.place,
    }
}

// What stopped a step, by an answer: nothing where it is fine.
pub fn by_of(answer: Result<usize, Refusal>) -> Option<Condition>
    ensures { result ≡ by_of answer }
{
    match answer {
        Ok(_) => None,
        Err(refusal) => refusal.by,
    }
}

// The value of an answer: 0 where it is refused.
pub fn value_of(answer: Result<usize, Refusal>) -> usize
    ensures { result ≡ value_of answer }
{
    match answer {
        Ok(value) => value,
        Err(_) => 0,
    }
}
