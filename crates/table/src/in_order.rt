// The walk over the events of a judged table, in their order.

ghost use Rattle.std.specs.Prelude.{◌≡◌, ◌≤◌};
ghost use Rattle.table.specs.Walk.{offset_of};
ghost use Rattle.table.specs.Decoded.{net_of};

// An event of a table: its number, and the offset of its record.
#[derive(Clone, Copy)]
pub struct Event {
    pub number: usize,
    pub at: usize,
}

// The events of a judged table from the next one to the last before an end: the next one's number and offset, and the end.
#[derive(Drop)]
pub struct Events<'a> {
    pub(crate) table: &'a [u8],
    pub(crate) number: usize,
    pub(crate) at: usize,
    pub(crate) end: usize,
    pub ghost at_is: { at ≡ offset_of table.now number },
    pub ghost before_end: { number ≤ end },
    pub ghost inside: { end ≤ (net_of table.now).events },
}

impl<'a> Iterator for Events<'a> {
    ghost use Rattle.std.specs.Iterator.{at_most};
    ghost use Rattle.std.specs.Prelude.{◌-◌};
    ghost use Rattle.table.specs.InOrder.{EventsStep};

    type Item = Event;

    ghost next_gives = { EventsStep };

    ghost remaining = { λ s. at_most (s.end - s.number) };

    #[inline]
    fn next(&mut self) -> Option<Event> {
        if self.number == self.end {
            return None;
        }
        let event = Event {
            number: self.number,
            at: self.at,
        };
        self.at = self.at + 4 + words::word(self.table, self.at) as usize;
        self.number = self.number + 1;
        Some(event)
    }
}
