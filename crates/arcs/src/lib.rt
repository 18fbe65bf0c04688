// The arcs of one transition of the exported net, laid out as ranges of places, and the way from one transition to the next.
#![tactic(auto)]

ghost use Rattle.std.specs.Prelude.{◌≡◌, suc, ◌+◌, ◌*◌, ◌<◌, length};
ghost use Rattle.lists.specs.Lists.{sum};
ghost use Rattle.records.specs.Records.{pre_part};
ghost use Rattle.model.specs.Numbering.{size};
ghost use Rattle.table.specs.Decoded.{net_of};
ghost use Rattle.unfolding.specs.Numbers as numbers;
ghost use Rattle.segments.specs.Ranges.{Owned};
ghost use Rattle.sides.specs.Sides.{Sided};
ghost use Rattle.arcs.specs.Arcs.{arcs_at, Arcs, Shared, Lent, side_at, shift_of};

use sides::Side;
use unfolding::Coloured;

// The side that is laid at a place: into the transition what is taken and what is filled, out of it what is put and what is emptied.
fn side_at(i: usize) -> Side
    ensures { result ≡ side_at i }
{
    if i == 0 {
        return Side::Takes;
    }
    if i == 1 {
        return Side::Fills;
    }
    if i == 2 {
        return Side::Puts;
    }
    Side::Empties
}

// What is added to the numbers of the side at a place: nothing where they are first places, else the number of these.
fn shift_at(i: usize, firsts: u32) -> u32
    ensures { result ≡ shift_of firsts (side_at i) }
{
    let side = side_at(i);
    match side {
        Side::Takes => 0,
        Side::Fills => firsts,
        Side::Puts => 0,
        Side::Empties => firsts,
    }
}

// The places of an event among markers and users, counted anew only for its first transition.
fn share(table: &[u8], own: Coloured, marks: &mut [u32], uses: &mut [u32])
    requires event_bound { own.event < (net_of table.now).events }
    requires lent { Lent table.now own.event own.rest marks.old uses.old }
    ensures { Shared table.now own.event marks.new uses.new }
{
    if own.rest == 0 {
        tally::tally(table, own.event, true, 1, marks);
        tally::tally(table, own.event, false, 0, uses);
    }
}

// The four sides of an unfolded event one after the other, each laid into what is left of the two arrays.
fn lay_arcs<'a>(
    table: &'a [u8],
    users: &'a [u32],
    bases: &'a [u32],
    marks: &'a [u32],
    uses: &'a [u32],
    chosen: &'a [u32],
    before: &'a [u32],
    after: &'a [u32],
    own: Coloured,
    starts: &mut [u32],
    sizes: &mut [u32],
)
    requires sided { Sided table.now users.now bases.now marks.now uses.now chosen.now (pre_part table.now own.at) before.now after.now own.event own.rest }
    requires rest_bound { (own.rest < size (net_of table.now) own.event) × (length starts.old ≡ 2048) × (length sizes.old ≡ 2048) }
    ensures { Arcs (net_of table.now) (sum (size (net_of table.now)) own.event + own.rest) starts.new sizes.new }
{
    let n = records::conditions(table) as usize;
    for i in 0..4 {
        let at = i * (2 * n);
        sides::lay_side(
            table,
            users,
            bases,
            marks,
            uses,
            chosen,
            before,
            after,
            side_at(i),
            own,
            shift_at(i, tally::number(bases, n)),
            &mut starts[at..],
            &mut sizes[at..],
        );
    }
}

// The arcs of one transition, laid out; how many.
pub fn open_transition<'a>(
    table: &'a [u8],
    markers: &'a [u32],
    users: &'a [u32],
    bases: &'a [u32],
    own: Coloured,
    marks: &mut [u32],
    uses: &mut [u32],
    starts: &mut [u32],
    sizes: &mut [u32],
) -> usize
    requires owned { Owned table.now markers.now users.now bases.now own.event own.at own.weight own.rest }
    requires lent { Lent table.now own.event own.rest marks.old uses.old }
    requires starts_len { (length starts.old ≡ 2048) × (length sizes.old ≡ 2048) }
    ensures shared { Shared table.now own.event marks.new uses.new }
    ensures laid { Arcs (net_of table.now) (sum (size (net_of table.now)) own.event + own.rest) starts.new sizes.new }
    ensures told { result ≡ arcs_at (net_of table.now) (sum (size (net_of table.now)) own.event + own.rest) }
{
    share(table, own, marks, uses);
    let mut chosen = [0u32; 256];
    let pre = tally::list_at(table, own.at, false);
    segments::choose(table, markers, pre, own.weight, own.rest, &mut chosen);
    let before = tally::members(pre);
    let after = tally::members(tally::list_at(table, own.at, true));
    lay_arcs(
        table,
        users,
        bases,
        &marks[..],
        &uses[..],
        &chosen,
        &before,
        &after,
        own,
        starts,
        sizes,
    );
    segments::total(&sizes[..], 8 * records::conditions(table) as usize)
}

// What the number after that of an unfolded event names: the next colour of its event, else the first of the next event.
pub fn next_owner<'a>(
    table: &'a [u8],
    events: usize,
    markers: &'a [u32],
    own: Coloured,
) -> Option<Coloured>
    requires within { numbers.Within table.now markers.now events }
    requires owner { numbers.Owner table.now (sum (size (net_of table.now)) own.event + own.rest) own.event own.at own.rest own.weight }
    ensures { numbers.Belongs table.now (suc (sum (size (net_of table.now)) own.event + own.rest)) result }
{
    if own.rest + 1 < own.weight {
        return Some(Coloured {
            rest: own.rest + 1,
            ..own
        });
    }
    if own.event + 1 < events {
        let at = own.at + 4 + words::word(table, own.at) as usize;
        let weight = colours::colours(table, markers, tally::list_at(table, at, false));
        return Some(Coloured {
            event: own.event + 1,
            at,
            weight,
            rest: 0,
        });
    }
    None
}
