// The numbers of unfolded events: for an event and markers.
#![tactic(auto)]

ghost use Rattle.std.specs.Prelude.{◌≡◌, ◌≤◌};
ghost use Rattle.words.specs.Words.{words};
ghost use Rattle.unfolding.specs.Numbers.{choices_of};
ghost use Rattle.events.specs.Colours.{colour_of};
ghost use Rattle.event_numbers.specs.Weights.{weighed, Weighing};
ghost use Rattle.event_numbers.specs.Answers.{number_of};

use events::Colour;
use refusal::{Refusal, TableEvent};

// The place of c among the colours of an event, if it is one: a marker for each persistent precondition, the lowest of which counts slowest.
#[tactic(auto, using(crate::proofs::Weights::some_left, crate::proofs::Weights::none_left))]
fn weigh<'a>(
    c: Colour,
    table: &'a [u8],
    events: usize,
    markers: &'a [u32],
    pre: &'a [u8],
) -> Option<usize>
    requires weighing { Weighing table.now markers.now events (words pre.now) }
    requires count_bound { c.count ≤ 16 }
    ensures { result ≡ weighed (choices_of table.now (words pre.now)) (colour_of c) }
{
    let mut number: usize = 0;
    let mut at: usize = 0;
    let mut i: usize = 0;
    while 1 < pre.len() - i {
        let b = words::word_within(pre, i) as usize;
        if colours::is_persistent(table, b) {
            if at == c.count {
                return None;
            }
            let m = c.picks[at];
            let place = unfolding::marker_place(table, events, b, m);
            let radix = tally::number(markers, b) as usize;
            if radix <= place {
                return None;
            }
            number = number * radix + place;
            at = at + 1;
        }
        i = i + 2;
    }
    if at < c.count {
        return None;
    }
    Some(number)
}

// The number for an event and markers.
pub fn event_number(table: &[u8], event: TableEvent, colour: Colour) -> Result<usize, Refusal>
    ensures { result ≡ number_of table.now event.0 colour }
{
    let mut markers = [0u32; 256];
    let mut users = [0u32; 256];
    let mut bases = [0u32; 257];
    let events = layout::lay_out(table, &mut markers, &mut users, &mut bases)?;
    let e = event.0;
    if events <= (e as usize) {
        return refusal::refused(10, 0);
    }
    if 16 < colour.count {
        return refusal::refused(10, 0);
    }
    let pre = tally::list_at(table, table::offset(table, e), false);
    let Some(place) = weigh(colour, table, events, &markers, pre) else {
        return refusal::refused(10, 0);
    };
    Ok(unfolding::colours_before(table, events, &markers, e as usize) + place)
}
