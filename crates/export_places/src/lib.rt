// Where the export of a table stands: the element at each place, the place of each element by its number, and the place after one.
#![tactic(auto)]

ghost use Rattle.std.specs.Prelude.{◌≡◌, ◌+◌, ◌*◌, ◌≤◌, ◌<◌, length};
ghost use Rattle.records.specs.Records.{conditions};
ghost use Rattle.table.specs.Decoded.{net_of};
ghost use Rattle.arcs.specs.Arcs.{exported};
ghost use Rattle.spots.specs.Spots.{Sized, Unfolds};
ghost use Rattle.export_places.specs.Places.{goes_on, Stands, place_of};
ghost use Rattle.export_places.specs.Needs.{Numbered, held_at, link_at, element_at, Kept, Shown, Finds, Follows};

use pnml::{Element, Link};
use spots::Spot;

// Where an export stands: at what opens it, at a place, at a transition, at an arc, at what closes it, or past all.
#[derive(Clone, Copy)]
pub enum Place {
    Opens,
    Place(usize),
    Transition(usize),
    Arc(Spot),
    Closes,
    Over,
}

// There is more to write.
pub fn goes_on(place: Place) -> bool
    ensures { result ≡ goes_on place }
{
    match place {
        Place::Opens => true,
        Place::Place(_) => true,
        Place::Transition(_) => true,
        Place::Arc(_) => true,
        Place::Closes => true,
        Place::Over => false,
    }
}

// A place of the doubled net holds a token at first.
fn held(start: &[u8], conditions: usize, x: usize) -> bool
    requires { (conditions ≤ length start.now) × (x < conditions + conditions) }
    ensures { result ≡ held_at start.now conditions x }
{
    if x < conditions {
        return start[x] == 1;
    }
    start[x - conditions] != 1
}

// What the arc at a spot joins.
fn link_at(table: &[u8], spot: Spot, starts: &[u32]) -> Link
    requires { Kept starts.now spot }
    ensures { result ≡ link_at starts.now (4 * conditions table.now) spot }
{
    let range = spot.range;
    let place = (starts[range] + spot.offset) as usize;
    if range < 4 * records::conditions(table) as usize {
        return Link::Into(place, spot.transition);
    }
    Link::OutOf(spot.transition, place)
}

// The element at a place.
pub fn element_at<'a>(
    table: &'a [u8],
    conditions: usize,
    start: &'a [u8],
    place: Place,
    starts: &'a [u32],
) -> Element
    requires { (conditions ≤ length start.now) × Shown conditions starts.now place }
    ensures { result ≡ element_at table.now conditions start.now starts.now place }
{
    match place {
        Place::Opens => Element::Opens,
        Place::Place(x) => Element::Place(x, held(start, conditions, x)),
        Place::Transition(t) => Element::Transition(t),
        Place::Arc(spot) => Element::Arc(spot.number, link_at(table, spot, starts)),
        Place::Closes => Element::Closes,
        Place::Over => Element::Opens,
    }
}

// The place of an arc by its number, of what closes, or the last place.
fn arc_place<'a>(
    table: &'a [u8],
    events: usize,
    markers: &'a [u32],
    users: &'a [u32],
    bases: &'a [u32],
    wanted: usize,
    marks: &mut [u32],
    uses: &mut [u32],
    starts: &mut [u32],
    sizes: &mut [u32],
) -> Place
    requires { Unfolds table.now markers.now users.now bases.now events × Sized marks.old uses.old starts.old sizes.old }
    ensures { Finds table.now markers.now users.now bases.now marks.new uses.new starts.new sizes.new (1 + ((exported (net_of table.now)).places + ((exported (net_of table.now)).transitions + wanted))) result }
{
    let reached = spots::reach(
        table, events, markers, users, bases, wanted, marks, uses, starts, sizes,
    );
    let all = reached.before + reached.arcs;
    if wanted < all {
        return Place::Arc(spots::spot_in(reached, wanted, &sizes[..]));
    }
    if wanted == all {
        return Place::Closes;
    }
    Place::Over
}

// The place of an element by its number.
pub fn place_at<'a>(
    table: &'a [u8],
    events: usize,
    conditions: usize,
    transitions: usize,
    markers: &'a [u32],
    users: &'a [u32],
    bases: &'a [u32],
    i: usize,
    marks: &mut [u32],
    uses: &mut [u32],
    starts: &mut [u32],
    sizes: &mut [u32],
) -> Place
    requires { Numbered table.now events conditions transitions markers.now users.now bases.now × Sized marks.old uses.old starts.old sizes.old }
    ensures { Finds table.now markers.now users.now bases.now marks.new uses.new starts.new sizes.new i result }
{
    if i == 0 {
        return Place::Opens;
    }
    let x = i - 1;
    if x < 2 * conditions {
        return Place::Place(x);
    }
    let t = x - 2 * conditions;
    if t < transitions {
        return Place::Transition(t);
    }
    arc_place(
        table,
        events,
        markers,
        users,
        bases,
        t - transitions,
        marks,
        uses,
        starts,
        sizes,
    )
}

// The place of the arc that comes next, or of what closes.
fn place_of(next: Option<Spot>) -> Place
    ensures { result ≡ place_of next }
{
    match next {
        Some(spot) => Place::Arc(spot),
        None => Place::Closes,
    }
}

// The place after one.
pub fn next_place<'a>(
    table: &'a [u8],
    events: usize,
    conditions: usize,
    transitions: usize,
    markers: &'a [u32],
    users: &'a [u32],
    bases: &'a [u32],
    place: Place,
    marks: &mut [u32],
    uses: &mut [u32],
    starts: &mut [u32],
    sizes: &mut [u32],
) -> Place
    requires numbered { Numbered table.now events conditions transitions markers.now users.now bases.now × Sized marks.old uses.old starts.old sizes.old }
    requires stands { Stands table.now markers.now users.now bases.now marks.old uses.old starts.old sizes.old place }
    ensures { Follows table.now markers.now users.now bases.now marks.new uses.new starts.new sizes.new place result }
{
    let i = match place {
        Place::Opens => 1,
        Place::Place(x) => x + 2,
        Place::Transition(t) => 2 * conditions + t + 2,
        Place::Arc(spot) => {
            return place_of(spots::next_spot(
                table, events, markers, users, bases, spot, marks, uses, starts, sizes,
            ));
        }
        Place::Closes => {
            return Place::Over;
        }
        Place::Over => {
            return Place::Over;
        }
    };
    place_at(
        table,
        events,
        conditions,
        transitions,
        markers,
        users,
        bases,
        i,
        marks,
        uses,
        starts,
        sizes,
    )
}
