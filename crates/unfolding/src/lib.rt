// The unfolding of a table asked for its counts, and the walks that its numbers share: markers by their places, the event of a number.
#![tactic(auto)]

ghost use Rattle.std.specs.Prelude.{◌≡◌, ◌+◌, ◌≤◌, ◌<◌, length, get_or, Ok};
ghost use Rattle.lists.specs.Lists.{index, sum};
ghost use Rattle.model.specs.Runs.{at_start};
ghost use Rattle.model.specs.Unfolding.{same_marker, markers, basic};
ghost use Rattle.model.specs.Numbering.{size};
ghost use Rattle.table.specs.Decoded.{net_of};
ghost use Rattle.layout.specs.Unfolds.{unfolding_of};
ghost use Rattle.unfolding.specs.Markers.{shown, meant};
ghost use Rattle.unfolding.specs.Numbers.{Within, Belongs, code, told};

use refusal::{Marker, Refusal, TableEvent};

// What the number of an unfolded event names: an event, where its record stands, how many colours it has, and which of them it is.
#[derive(Clone, Copy)]
pub struct Coloured {
    pub event: usize,
    pub at: usize,
    pub weight: u32,
    pub rest: u32,
}

// The marker at a place among those of condition b, as a number: 0 for the start, else one more than its event.
pub fn marker_code(table: &[u8], events: usize, b: usize, place: usize) -> u16
    requires events_value { events ≡ (net_of table.now).events }
    requires events_bound { events ≤ 256 }
    requires place_in_bounds { place < length (markers (net_of table.now) b) }
    ensures { result ≡ code (get_or (markers (net_of table.now) b) place at_start) }
{
    if place == 0 {
        return 0;
    }
    tally::nth(table, events, true, b, place - 1) as u16 + 1
}

// The marker that such a number tells.
pub fn marker_of(code: u16) -> Marker
    ensures { result ≡ shown (told code) }
{
    if code == 0 {
        return Marker::Start;
    }
    Marker::ByEvent(TableEvent(code - 1))
}

// The marker at a place among those of condition b.
pub fn marker_at(table: &[u8], events: usize, b: usize, place: usize) -> Marker
    requires events_value { events ≡ (net_of table.now).events }
    requires events_bound { events ≤ 256 }
    requires place_in_bounds { place < length (markers (net_of table.now) b) }
    ensures { result ≡ shown (get_or (markers (net_of table.now) b) place at_start) }
{
    marker_of(marker_code(table, events, b, place))
}

// The place of a marker among those of condition b; their number where it is none of them.
pub fn marker_place(table: &[u8], events: usize, b: usize, m: Marker) -> usize
    requires events_value { events ≡ (net_of table.now).events }
    requires events_bound { events ≤ 256 }
    ensures { result ≡ index (same_marker (meant m)) (markers (net_of table.now) b) }
{
    let Marker::ByEvent(e) = m else {
        return 0;
    };
    let wanted = e.0 as usize;
    1 + tally::place(table, events, true, b, wanted)
}

// What an unfolded event's number names, if it is one.
pub fn owner<'a>(table: &'a [u8], events: usize, markers: &'a [u32], j: u32) -> Option<Coloured>
    requires { Within table.now markers.now events }
    ensures { Belongs table.now j result }
{
    let mut rest = j;
    for event in table::events(table, events) {
        let weight = colours::colours(table, markers, tally::list_at(table, event.at, false));
        if rest < weight {
            return Some(Coloured {
                event: event.number,
                at: event.at,
                weight,
                rest,
            });
        }
        rest = rest - weight;
    }
    None
}

// How many unfolded events the first events have.
pub fn colours_before<'a>(table: &'a [u8], events: usize, markers: &'a [u32], upto: usize) -> usize
    requires within { Within table.now markers.now events }
    requires upto_le_events { upto ≤ events }
    ensures { result ≡ sum (size (net_of table.now)) upto }
{
    let mut total: usize = 0;
    for event in table::events(table, upto) {
        total = total
            + colours::colours(table, markers, tally::list_at(table, event.at, false)) as usize;
    }
    total
}

// How many unfolded conditions a table has.
pub fn condition_count(table: &[u8]) -> Result<usize, Refusal>
    ensures { result ≡ unfolding_of table.now (Ok (basic (net_of table.now)).conditions) }
{
    let mut markers = [0u32; 256];
    let mut users = [0u32; 256];
    let mut bases = [0u32; 257];
    layout::lay_out(table, &mut markers, &mut users, &mut bases)?;
    let conditions = records::conditions(table) as usize;
    Ok(tally::number(&bases, conditions) as usize)
}

// How many unfolded events a table has.
pub fn event_count(table: &[u8]) -> Result<usize, Refusal>
    ensures { result ≡ unfolding_of table.now (Ok (basic (net_of table.now)).events) }
{
    let mut markers = [0u32; 256];
    let mut users = [0u32; 256];
    let mut bases = [0u32; 257];
    let events = layout::lay_out(table, &mut markers, &mut users, &mut bases)?;
    Ok(colours_before(table, events, &markers, events))
}
