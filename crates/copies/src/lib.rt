// The marking of the unfolding, written from the table's marking and the events that have occurred, which determine it.
#![tactic(auto)]

ghost use Rattle.std.specs.Prelude.{◌≡◌, ◌++◌, true, length, get_or, drop};
ghost use Rattle.words.specs.Words.{words};
ghost use Rattle.model.specs.Unfolding.{basic};
ghost use Rattle.model.specs.Lent.{bit, marking};
ghost use Rattle.table.specs.Decoded.{net_of};
ghost use Rattle.tally.specs.Having.{Tally};
ghost use Rattle.held.specs.Held.{held_in};
ghost use Rattle.copies.specs.Copies.{copies_of};
ghost use Rattle.copies.specs.Writing.{Fits, Ranged, own_count, own_holds, copies_from, copies_count, CopiesFit, ListFits, Listed, OwnRight, EventsRight, Roomy, Prepared};

// Whether something holds, as the same byte for so many from a place on.
fn fill(out: &mut [u8], from: usize, count: usize, holds: bool)
    requires { Fits from count out.old }
    ensures { Ranged from count (bit holds) out.old out.new }
{
    out[from..from + count].fill(holds as u8);
}

// The byte of an ordinary condition, or of a persistent one the copies that the start marks.
fn write_own<'a>(
    table: &'a [u8],
    users: &'a [u32],
    bases: &'a [u32],
    begun: [u64; 4],
    held: [u64; 4],
    b: usize,
    out: &mut [u8],
)
    requires { Fits (get_or bases.now b 0) (own_count table.now users.now b) out.old }
    ensures { Ranged (get_or bases.now b 0) (own_count table.now users.now b) (bit (own_holds table.now (held_in begun) (held_in held) b)) out.old out.new }
{
    let base = tally::number(bases, b) as usize;
    if colours::is_persistent(table, b) {
        fill(
            out,
            base,
            tally::number(users, b) as usize,
            held::holds(begun, b),
        );
        return;
    }
    fill(out, base, 1, held::holds(held, b));
}

// Every ordinary condition, and of every persistent one the copies that the start marks.
fn write_first<'a>(
    table: &'a [u8],
    users: &'a [u32],
    bases: &'a [u32],
    begun: [u64; 4],
    held: [u64; 4],
    out: &mut [u8],
)
    requires { Prepared table.now users.now bases.now (held_in begun) (length out.old) }
    ensures { OwnRight (net_of table.now) (held_in held) out.old out.new }
{
    let n = records::conditions(table) as usize;
    for b in 0..n {
        write_own(table, users, bases, begun, held, b, out);
    }
}

// The copies of a condition for the marker at its running place; none where it is ordinary.
fn write_marked<'a>(
    table: &'a [u8],
    users: &'a [u32],
    bases: &'a [u32],
    places: &'a [u32],
    b: usize,
    holds: bool,
    out: &mut [u8],
)
    requires { CopiesFit table.now users.now bases.now places.now b out.old }
    ensures { Ranged (copies_from users.now bases.now places.now b) (copies_count table.now users.now b) (bit holds) out.old out.new }
{
    if colours::is_persistent(table, b) {
        let count = tally::number(users, b) as usize;
        let from = tally::number(bases, b) as usize + tally::number(places, b) as usize * count;
        fill(out, from, count, holds);
    }
}

// The copies that an event marks: those of each persistent condition in its list.
fn write_list<'a>(
    table: &'a [u8],
    users: &'a [u32],
    bases: &'a [u32],
    places: &'a [u32],
    list: &'a [u8],
    holds: bool,
    out: &mut [u8],
)
    requires { ListFits table.now users.now bases.now places.now (words list.now) out.old }
    ensures { Listed table.now users.now bases.now places.now (words list.now) (bit holds) out.old out.new }
{
    for b in words::numbers(list) {
        write_marked(table, users, bases, places, usize::from(b), holds, out);
    }
}

// All copies that events mark, in one walk over the table with the running place of each condition's next marker.
fn write_events<'a>(
    table: &'a [u8],
    events: usize,
    users: &'a [u32],
    bases: &'a [u32],
    seen: &'a [u8],
    places: &mut [u32],
    out: &mut [u8],
)
    requires roomy { Roomy table.now users.now bases.now (length out.old) }
    requires events_value { events ≡ (net_of table.now).events }
    requires tally { Tally (net_of table.now) true 1 0 places.old }
    ensures { EventsRight (net_of table.now) (marking seen.now) out.old out.new }
{
    for event in table::events(table, events) {
        let list = tally::list_at(table, event.at, true);
        let holds = words::byte(seen, event.number) == 1;
        write_list(table, users, bases, &places[..], list, holds, out);
        tally::raise(places, list);
    }
}

// The marking of the unfolding over the first bytes of a lent output, for a table that is laid out: from the marking at the start,
// the table's marking, and bytes that tell which events have occurred; what is in places is overwritten, and of no use after it.
pub fn write_copies<'a>(
    table: &'a [u8],
    events: usize,
    users: &'a [u32],
    bases: &'a [u32],
    begun: [u64; 4],
    held: [u64; 4],
    seen: &'a [u8],
    places: &mut [u32],
    out: &mut [u8],
)
    requires prepared { Prepared table.now users.now bases.now (held_in begun) (length out.old) }
    requires events_value { events ≡ (net_of table.now).events }
    requires places_len { length places.old ≡ 256 }
    ensures { out.new ≡ copies_of (net_of table.now) (held_in held) (marking seen.now) ++ drop (basic (net_of table.now)).conditions out.old }
{
    tally::tally(table, 0, true, 1, places);
    write_first(table, users, bases, begun, held, out);
    write_events(table, events, users, bases, seen, places, out);
}
