// What stops a step of either net, and the refusal that tells it: a condition keeps the numbering that it belongs to.
#![tactic(auto)]

ghost use Rattle.std.specs.Prelude.{◌≡◌, None, Some};
ghost use Rattle.refusal.specs.declared.Condition.{Condition};
ghost use Rattle.refusal.specs.declared.Condition.TheVariants.{Table, Unfolded};
ghost use Rattle.stopping.specs.Causes.{cause_number, cause_by, cause_place, refusal_at, refusal_of};

use refusal::{Condition, Refusal, TableCondition, UnfoldedCondition};

// A condition of one of the two nets.
pub trait Numbered: Copy {
    ghost numbered: { Self → Condition };

    // The condition as one of its numbering.
    fn numbered(self) -> Condition
        ensures { result ≡ numbered self };
}

impl Numbered for TableCondition {
    ghost numbered = { Table };

    fn numbered(self) -> Condition {
        Condition::Table(self)
    }
}

impl Numbered for UnfoldedCondition {
    ghost numbered = { Unfolded };

    fn numbered(self) -> Condition {
        Condition::Unfolded(self)
    }
}

// What stops a step: there is no such event, or the lowest condition that is lacking or in contact.
#[derive(Clone, Copy)]
pub enum Cause<C> {
    Unknown,
    Lacks(C),
    Meets(C),
}

impl<C: Numbered> Cause<C> {
    // The number that it is refused with.
    fn number(self) -> u8
        ensures { result ≡ cause_number self }
    {
        match self {
            Cause::Unknown => 10,
            Cause::Lacks(_) => 11,
            Cause::Meets(_) => 12,
        }
    }

    // The condition that stops the step, if one does.
    fn condition(self) -> Option<Condition>
        ensures { result ≡ cause_by C.numbered self }
    {
        match self {
            Cause::Unknown => None,
            Cause::Lacks(b) => Some(b.numbered()),
            Cause::Meets(b) => Some(b.numbered()),
        }
    }

    // The place of a firing that is no step of a run: that condition, and 0 where there is none.
    fn place(self) -> usize
        ensures { result ≡ cause_place C.numbered self }
    {
        match self {
            Cause::Unknown => 0,
            Cause::Lacks(b) => b.numbered().number() as usize,
            Cause::Meets(b) => b.numbered().number() as usize,
        }
    }

    // The refusal of a step of a run, at its place in the run.
    pub fn at(self, place: usize) -> Refusal
        ensures { result ≡ refusal_at C.numbered self place }
    {
        Refusal {
            number: self.number(),
            place,
            by: self.condition(),
        }
    }
}

impl<C: Numbered> From<Cause<C>> for Refusal {
    ghost from_gives = { λ cause refusal. refusal ≡ refusal_of C.numbered cause };

    // The refusal of a firing that is no step of a run.
    fn from(cause: Cause<C>) -> Refusal {
        cause.at(cause.place())
    }
}
