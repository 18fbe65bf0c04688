// The unfolded event that each event of a table has by the first markers of a run: first the place of each first marker among the
// markers of its condition, then the numbers.
#![tactic(auto)]

ghost use Rattle.std.specs.Prelude.{◌≡◌, ◌≤◌, length};
ghost use Rattle.words.specs.Words.{words};
ghost use Rattle.model.specs.Numbering.{size};
ghost use Rattle.table.specs.Decoded.{net_of};
ghost use Rattle.tally.specs.Having.{Room};
ghost use Rattle.layout.specs.Laid.{Low, Sums};
ghost use Rattle.unfolding.specs.Numbers.{Within};
ghost use Rattle.firsts.specs.Firsts.{first_of};
ghost use Rattle.places.specs.Places.{place_begun, place_more, placed_all, Begun, Marking, Placed};
ghost use Rattle.places.specs.Numbers.{joined, joined_all, Joining, Numbering, Numbered, Settled};

use firsts::Firsts;
use refusal::Marker;

// Where the count of a first marker's place begins: the start stands at 0, and before every event.
fn place_begun(first: Option<Marker>) -> u32
    ensures { result ≡ place_begun (first_of first) }
{
    match first {
        Some(Marker::ByEvent(_)) => 1,
        _ => 0,
    }
}

// One more where event e stands before a first marker, which is then a later event.
fn place_more(first: Option<Marker>, e: usize) -> u32
    ensures { result ≡ place_more (first_of first) e }
{
    match first {
        Some(Marker::ByEvent(event)) if e < event.0 as usize => 1,
        _ => 0,
    }
}

// Each count begun.
fn begin_places(firsts: Firsts, places: &mut [u32])
    requires { length places.old ≡ 256 }
    ensures { Begun firsts.slots places.new }
{
    for (b, place) in places.iter_mut().enumerate() {
        *place = place_begun(firsts.slots[b]);
    }
}

// Event e counted for each condition of its list.
fn count_event(firsts: Firsts, e: usize, list: &[u8], places: &mut [u32])
    requires room { Room places.old list.now }
    requires places_len { length places.old ≡ 256 }
    ensures { places.new ≡ placed_all firsts.slots e places.old (words list.now) }
{
    for b in words::numbers(list) {
        let b = usize::from(b);
        places[b] = places[b] + place_more(firsts.slots[b], e);
    }
}

// The place of each condition's first marker among its markers, in one walk over the table.
pub fn marker_places(table: &[u8], events: usize, firsts: Firsts, places: &mut [u32])
    requires events_value { events ≡ (net_of table.now).events }
    requires marking { Marking (net_of table.now) firsts.slots }
    requires places_len { (length places.old ≡ 256) × (events ≤ 256) }
    ensures { Placed (net_of table.now) firsts.slots places.new }
{
    begin_places(firsts, places);
    for event in table::events(table, events) {
        let list = tally::list_at(table, event.at, true);
        count_event(firsts, event.number, list, places);
    }
}

// A number with the place of one more condition's marker behind it, unless the condition is ordinary.
fn joined_one<'a>(
    table: &'a [u8],
    markers: &'a [u32],
    places: &'a [u32],
    number: u32,
    b: usize,
) -> u32
    requires { Low markers.now × Low places.now × (number ≤ 65535) }
    ensures { result ≡ joined table.now markers.now places.now number b }
{
    if colours::is_persistent(table, b) {
        return number * tally::number(markers, b) + tally::number(places, b);
    }
    number
}

// The places of all persistent conditions of a list put together to one number.
fn joined_all<'a>(table: &'a [u8], markers: &'a [u32], places: &'a [u32], list: &'a [u8]) -> u32
    requires { Joining table.now markers.now places.now (words list.now) }
    ensures { result ≡ joined_all table.now markers.now places.now 0 (words list.now) }
{
    let mut number: u32 = 0;
    for b in words::numbers(list) {
        number = joined_one(table, markers, places, number, usize::from(b));
    }
    number
}

// The number of each event's unfolded event: those before its own, then its colour's by the places.
fn event_numbers<'a>(
    table: &'a [u8],
    events: usize,
    markers: &'a [u32],
    before: &'a [u32],
    places: &'a [u32],
    numbers: &mut [u32],
)
    requires numbering { Numbering table.now markers.now events before.now places.now }
    requires numbers_len { length numbers.old ≡ 256 }
    ensures { Numbered table.now markers.now places.now (net_of table.now).events numbers.new }
{
    for event in table::events(table, events) {
        let list = tally::list_at(table, event.at, false);
        let number = joined_all(table, markers, places, list);
        numbers[event.number] = tally::number(before, event.number) + number;
    }
}

// For each event of a table the number of its unfolded event by the first markers of a run.
pub fn settled_numbers<'a>(
    table: &'a [u8],
    events: usize,
    markers: &'a [u32],
    before: &'a [u32],
    firsts: Firsts,
    numbers: &mut [u32],
)
    requires within { Within table.now markers.now events }
    requires sums { Sums (size (net_of table.now)) (net_of table.now).events before.now }
    requires marking { Marking (net_of table.now) firsts.slots }
    requires numbers_len { length numbers.old ≡ 256 }
    ensures { Settled (net_of table.now) firsts.slots numbers.new }
{
    let mut places = [0u32; 256];
    marker_places(table, events, firsts, &mut places);
    event_numbers(table, events, markers, before, &places, numbers);
}
