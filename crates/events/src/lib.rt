// The event and the markers behind the number of an unfolded event.
#![tactic(auto)]

ghost use Rattle.std.specs.Prelude.{◌≡◌, ◌+◌, ◌≤◌, ◌<◌, length};
ghost use Rattle.words.specs.Words.{words};
ghost use Rattle.model.specs.Numbering.{digits};
ghost use Rattle.colours.specs.Colours.{ending};
ghost use Rattle.unfolding.specs.Numbers.{choices_of};
ghost use Rattle.events.specs.Colours.{no_colour, push, push_all};
ghost use Rattle.events.specs.Numbers.{Picking, Room, told_by};
ghost use Rattle.events.specs.Answers.{origin_of};

use refusal::{Marker, Refusal, TableEvent, UnfoldedEvent};

// A colour: one marker for each persistent precondition, ascending.
#[derive(Clone, Copy)]
pub struct Colour {
    pub count: usize,
    pub picks: [Marker; 16],
}

// The event and the markers behind an unfolded event's number.
#[derive(Clone, Copy)]
pub struct EventOrigin {
    pub event: TableEvent,
    pub colour: Colour,
}

// The colour without a marker.
fn no_colour() -> Colour
    ensures { result ≡ no_colour }
{
    Colour {
        count: 0,
        picks: [Marker::Start; 16],
    }
}

// The colour with one marker more.
fn pushed(c: Colour, m: Marker) -> Colour
    requires { c.count < 16 }
    ensures { result ≡ push c m }
{
    let at = c.count;
    let mut d = c;
    d.picks[at] = m;
    d.count = at + 1;
    d
}

// The markers of a colour by its number, written as numbers behind those before: a recursion down the persistent preconditions, with the
// lists behind references so that all calls can use one frame. How many there are then.
fn picked<'a>(
    codes: &mut [u16; 16],
    count: usize,
    table: &&'a [u8],
    events: usize,
    markers: &[u32; 256],
    pre: &&'a [u8],
    left: usize,
    weight: u32,
    rest: u32,
) -> usize
    requires left_in_bounds { left ≤ length pre.now.now }
    requires picking { Picking table.now.now markers.now events (words (ending left pre.now.now)) weight rest }
    requires room { Room table.now.now codes.old count (words (ending left pre.now.now)) }
    ensures counted { (length codes.new ≡ 16) × (result ≡ count + length (choices_of table.now.now (words (ending left pre.now.now)))) }
    ensures coloured { told_by codes.new result ≡ push_all (told_by codes.old count) (digits (choices_of table.now.now (words (ending left pre.now.now))) rest) }
{
    let bytes = *table;
    let list = *pre;
    let later = &list[list.len() - left..];
    let i = colours::first_persistent(records::flags(bytes), later);
    if left - i < 2 {
        return count;
    }
    let b = words::word_within(later, i) as usize;
    let below = weight / tally::number(markers, b);
    codes[count] = unfolding::marker_code(bytes, events, b, (rest / below) as usize);
    picked(
        codes,
        count + 1,
        table,
        events,
        markers,
        pre,
        left - i - 2,
        below,
        rest % below,
    )
}

// The colour that so many numbers tell.
fn coloured(codes: &[u16], count: usize) -> Colour
    requires codes_len { length codes.now ≡ 16 }
    requires count_bound { count ≤ 16 }
    ensures { result ≡ told_by codes.now count }
{
    let mut c = no_colour();
    let mut i: usize = 0;
    while i < count {
        c = pushed(c, unfolding::marker_of(codes[i]));
        i = i + 1;
    }
    c
}

// The colour with a number among those that a list of preconditions leaves.
fn colour_at<'a>(
    table: &'a [u8],
    events: usize,
    markers: &[u32; 256],
    pre: &'a [u8],
    weight: u32,
    rest: u32,
) -> Colour
    requires picking { Picking table.now markers.now events (words pre.now) weight rest }
    requires pre_len_bound { length (choices_of table.now (words pre.now)) ≤ 16 }
    ensures { result ≡ push_all no_colour (digits (choices_of table.now (words pre.now)) rest) }
{
    let mut codes = [0u16; 16];
    let left = pre.len();
    let count = picked(
        &mut codes, 0, &table, events, markers, &pre, left, weight, rest,
    );
    coloured(&codes, count)
}

// The event and the markers behind an unfolded event's number.
pub fn event_origin(table: &[u8], j: UnfoldedEvent) -> Result<EventOrigin, Refusal>
    ensures { result ≡ origin_of table.now j.0 }
{
    let mut markers = [0u32; 256];
    let mut users = [0u32; 256];
    let mut bases = [0u32; 257];
    let events = layout::lay_out(table, &mut markers, &mut users, &mut bases)?;
    let Some(own) = unfolding::owner(table, events, &markers, j.0 as u32) else {
        return refusal::refused(10, 0);
    };
    let pre = tally::list_at(table, own.at, false);
    Ok(EventOrigin {
        event: TableEvent(own.event as u16),
        colour: colour_at(table, events, &markers, pre, own.weight, own.rest),
    })
}
