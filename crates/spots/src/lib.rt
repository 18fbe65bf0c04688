// The arcs of an export by the spot where each stands: found by number, or from one to the next, so that nothing is walked again.
#![tactic(auto)]

ghost use Rattle.std.specs.Prelude.{◌≡◌, ◌+◌, ◌*◌, ◌≤◌, ◌<◌, length};
ghost use Rattle.records.specs.Records.{conditions};
ghost use Rattle.spots.specs.Spots.{found_by, moved_to, at_none, Spotted, Skips, Sized, Unfolds, Due, Reads, Reaches, Holding, Held};

use unfolding::Coloured;

// Where an arc of an export stands: the unfolded event that is its transition and that one's number, its own number among all arcs, and
// its range of places with an offset into it.
#[derive(Clone, Copy)]
pub struct Spot {
    pub own: Coloured,
    pub transition: usize,
    pub number: usize,
    pub range: usize,
    pub offset: u32,
}

// Where a search for an arc ends: the transition that was opened last, how many arcs come before its own, and how many it has.
#[derive(Clone, Copy)]
pub struct Reached {
    pub own: Coloured,
    pub transition: usize,
    pub before: usize,
    pub arcs: usize,
}

// The first range from one on that is not empty; their number where each is.
fn next_range(sizes: &[u32], ranges: usize, from: usize) -> usize
    requires { (from ≤ ranges) × (ranges ≤ length sizes.now) }
    ensures { Skips sizes.now ranges from result }
{
    for range in from..ranges {
        if 0 < sizes[range] {
            return range;
        }
    }
    ranges
}

// How many ranges the arcs of a transition have.
fn range_count(table: &[u8]) -> usize
    ensures { result ≡ 8 * conditions table.now }
{
    8 * records::conditions(table) as usize
}

// The next arc of the same transition.
fn moved(spot: Spot, range: usize, offset: u32) -> Spot
    requires { spot.number < 1099511627776 }
    ensures { result ≡ moved_to spot range offset }
{
    Spot {
        number: spot.number + 1,
        range,
        offset,
        ..spot
    }
}

// A transition that is due opened at its first arc.
fn open_spot<'a>(
    table: &'a [u8],
    markers: &'a [u32],
    users: &'a [u32],
    bases: &'a [u32],
    own: Coloured,
    transition: usize,
    number: usize,
    marks: &mut [u32],
    uses: &mut [u32],
    starts: &mut [u32],
    sizes: &mut [u32],
) -> Spot
    requires { Due table.now markers.now users.now bases.now marks.old uses.old starts.old sizes.old (found_by own) transition number }
    ensures { Spotted table.now markers.now users.now bases.now marks.new uses.new starts.new sizes.new result × (result.number ≡ number) }
{
    arcs::open_transition(
        table, markers, users, bases, own, marks, uses, starts, sizes,
    );
    let range = next_range(&sizes[..], range_count(table), 0);
    Spot {
        own,
        transition,
        number,
        range,
        offset: 0,
    }
}

// The first arc of the transition that is due, where there is one.
fn spot_from<'a>(
    table: &'a [u8],
    markers: &'a [u32],
    users: &'a [u32],
    bases: &'a [u32],
    found: Option<Coloured>,
    transition: usize,
    number: usize,
    marks: &mut [u32],
    uses: &mut [u32],
    starts: &mut [u32],
    sizes: &mut [u32],
) -> Option<Spot>
    requires { Due table.now markers.now users.now bases.now marks.old uses.old starts.old sizes.old found transition number }
    ensures { Reads table.now markers.now users.now bases.now marks.new uses.new starts.new sizes.new number result }
{
    let Some(own) = found else {
        return None;
    };
    let spot = open_spot(
        table, markers, users, bases, own, transition, number, marks, uses, starts, sizes,
    );
    Some(spot)
}

// The arc after one: in its range, in a later range, or the first of the next transition.
pub fn next_spot<'a>(
    table: &'a [u8],
    events: usize,
    markers: &'a [u32],
    users: &'a [u32],
    bases: &'a [u32],
    spot: Spot,
    marks: &mut [u32],
    uses: &mut [u32],
    starts: &mut [u32],
    sizes: &mut [u32],
) -> Option<Spot>
    requires { Unfolds table.now markers.now users.now bases.now events × Spotted table.now markers.now users.now bases.now marks.old uses.old starts.old sizes.old spot }
    ensures { Reads table.now markers.now users.now bases.now marks.new uses.new starts.new sizes.new (spot.number + 1) result }
{
    let here = spot.range;
    if spot.offset + 1 < sizes[here] {
        return Some(moved(spot, here, spot.offset + 1));
    }
    let ranges = range_count(table);
    let range = next_range(&sizes[..], ranges, here + 1);
    if range < ranges {
        return Some(moved(spot, range, 0));
    }
    let found = arcs::next_owner(table, events, markers, spot.own);
    spot_from(
        table,
        markers,
        users,
        bases,
        found,
        spot.transition + 1,
        spot.number + 1,
        marks,
        uses,
        starts,
        sizes,
    )
}

// A search that found no transition after so many arcs.
fn nowhere(before: usize) -> Reached
    ensures { result ≡ at_none before }
{
    Reached {
        own: Coloured {
            event: 0,
            at: 0,
            weight: 0,
            rest: 0,
        },
        transition: 0,
        before,
        arcs: 0,
    }
}

// The transition that has a wanted arc: the transitions are opened one after the other, and their arcs added up.
pub fn reach<'a>(
    table: &'a [u8],
    events: usize,
    markers: &'a [u32],
    users: &'a [u32],
    bases: &'a [u32],
    wanted: usize,
    marks: &mut [u32],
    uses: &mut [u32],
    starts: &mut [u32],
    sizes: &mut [u32],
) -> Reached
    requires { Unfolds table.now markers.now users.now bases.now events × Sized marks.old uses.old starts.old sizes.old }
    ensures { Reaches table.now markers.now users.now bases.now wanted marks.new uses.new starts.new sizes.new result }
{
    let mut found = unfolding::owner(table, events, markers, 0);
    let mut transition: usize = 0;
    let mut before: usize = 0;
    loop {
        let Some(own) = found else {
            return nowhere(before);
        };
        let arcs = arcs::open_transition(
            table, markers, users, bases, own, marks, uses, starts, sizes,
        );
        if wanted < before + arcs {
            return Reached {
                own,
                transition,
                before,
                arcs,
            };
        }
        found = arcs::next_owner(table, events, markers, own);
        transition = transition + 1;
        before = before + arcs;
    }
}

// The range and the offset of a wanted arc of the transition that a search ended at.
pub fn spot_in(reached: Reached, wanted: usize, sizes: &[u32]) -> Spot
    requires { Holding sizes.now reached.before wanted }
    ensures { Held sizes.now reached wanted result }
{
    let mut left = (wanted - reached.before) as u32;
    for (range, size) in sizes.iter().enumerate() {
        if left < *size {
            return Spot {
                own: reached.own,
                transition: reached.transition,
                number: wanted,
                range,
                offset: left,
            };
        }
        left = left - *size;
    }
    unreachable!()
}
