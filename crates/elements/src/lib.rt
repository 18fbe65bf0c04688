// The export of a table element by element: by number, or from one place to the next, so that nothing is walked again.
#![tactic(auto)]

ghost use Rattle.std.specs.Prelude.{◌≡◌, true, ◌≤◌, ltb, length, get_or};
ghost use Rattle.model.specs.Across.{most_unfolded};
ghost use Rattle.refusal.specs.Answer.{need, fitting, written};
ghost use Rattle.records.specs.Records.{conditions};
ghost use Rattle.table.specs.Decoded.{net_of};
ghost use Rattle.spelling.specs.Puts.{Puts};
ghost use Rattle.pnml.specs.Text.{text_of};
ghost use Rattle.pnml.specs.Needs.{most_bytes};
ghost use Rattle.spots.specs.Spots.{Sized, Unfolds};
ghost use Rattle.elements.specs.Calls.{elements_of, element_text, element_count_of, element_of, element_written_of};
ghost use Rattle.export_places.specs.Places.{index_at, goes_on, Stands};
ghost use Rattle.export_places.specs.Needs.{Follows};
ghost use Rattle.elements.specs.Needs.{Ready, Opens};

use export_places::Place;
use pnml::Element;
use refusal::Refusal;

// No export has so many arcs.
const PAST_ALL: usize = 1099511627776;

// What a table is opened to: the number of its events, then how many unfolded conditions and events.
#[derive(Clone, Copy)]
pub struct Opened {
    pub events: usize,
    pub conditions: usize,
    pub transitions: usize,
}

// How many bytes were written, and where the export stands after them.
#[derive(Clone, Copy)]
pub struct Written {
    pub count: usize,
    pub next: Place,
}

// How many unfolded conditions a table has that is laid out.
fn condition_count<'a>(table: &'a [u8], bases: &'a [u32]) -> usize
    ensures { result ≡ get_or bases.now (conditions table.now) 0 }
{
    tally::number(bases, records::conditions(table) as usize) as usize
}

// How many elements the export of a table has that is laid out.
fn count_elements<'a>(
    table: &'a [u8],
    events: usize,
    markers: &'a [u32],
    users: &'a [u32],
    bases: &'a [u32],
) -> usize
    requires { Unfolds table.now markers.now users.now bases.now events }
    ensures { result ≡ length (elements_of table.now) }
{
    let mut marks = [0u32; 256];
    let mut uses = [0u32; 256];
    let mut starts = [0u32; 2048];
    let mut sizes = [0u32; 2048];
    let reached = spots::reach(
        table,
        events,
        markers,
        users,
        bases,
        PAST_ALL,
        &mut marks,
        &mut uses,
        &mut starts,
        &mut sizes,
    );
    let arcs = reached.before + reached.arcs;
    let transitions = unfolding::colours_before(table, events, markers, events);
    2 + 2 * condition_count(table, bases) + transitions + arcs
}

// How many elements the export of a table has.
pub fn element_count(table: &[u8]) -> Result<usize, Refusal>
    ensures { result ≡ element_count_of table.now }
{
    let mut markers = [0u32; 256];
    let mut users = [0u32; 256];
    let mut bases = [0u32; 257];
    let events = layout::lay_out(table, &mut markers, &mut users, &mut bases)?;
    Ok(count_elements(table, events, &markers, &users, &bases))
}

// A table opened for its export: laid out, its unfolded conditions and events counted, and the bytes of the unfolded start put.
pub fn open(
    table: &[u8],
    markers: &mut [u32],
    users: &mut [u32],
    bases: &mut [u32],
    start: &mut [u8],
) -> Result<Opened, Refusal>
    requires { (length markers.old ≡ 256) × (length users.old ≡ 256) × (length bases.old ≡ 257) × (length start.old ≡ most_unfolded) }
    ensures { Opens table.now result markers.new users.new bases.new start.new }
{
    let events = layout::lay_out(table, markers, users, bases)?;
    let conditions = condition_count(table, &bases[..]);
    let transitions = unfolding::colours_before(table, events, &markers[..], events);
    starting::unfolded_start(table, start).unwrap();
    Ok(Opened {
        events,
        conditions,
        transitions,
    })
}

// An element by its number, of a table that is open, written into a lent output.
fn element_in<'a>(
    table: &'a [u8],
    events: usize,
    conditions: usize,
    transitions: usize,
    markers: &'a [u32],
    users: &'a [u32],
    bases: &'a [u32],
    start: &'a [u8],
    i: usize,
    out: &mut [u8],
) -> Result<usize, Refusal>
    requires { Ready table.now events conditions transitions markers.now users.now bases.now start.now }
    ensures answer { result ≡ need (ltb i (length (elements_of table.now))) 10 0 (fitting (length (element_text table.now i)) (length out.old)) }
    ensures after { out.new ≡ written result (element_text table.now i) out.old }
{
    let mut marks = [0u32; 256];
    let mut uses = [0u32; 256];
    let mut starts = [0u32; 2048];
    let mut sizes = [0u32; 2048];
    let place = export_places::place_at(
        table,
        events,
        conditions,
        transitions,
        markers,
        users,
        bases,
        i,
        &mut marks,
        &mut uses,
        &mut starts,
        &mut sizes,
    );
    if export_places::goes_on(place) {
        let element = export_places::element_at(table, conditions, start, place, &starts);
        return pnml::write(conditions, element, out);
    }
    refusal::refused(10, 0)
}

// An element of the export of a table by its number, written into a lent output.
pub fn element(table: &[u8], i: usize, out: &mut [u8]) -> Result<usize, Refusal>
    ensures answer { result ≡ element_of table.now i (length out.old) }
    ensures after { out.new ≡ element_written_of table.now i out.old }
{
    let mut markers = [0u32; 256];
    let mut users = [0u32; 256];
    let mut bases = [0u32; 257];
    let mut start = [0u8; 65535];
    let opened = open(table, &mut markers, &mut users, &mut bases, &mut start)?;
    element_in(
        table,
        opened.events,
        opened.conditions,
        opened.transitions,
        &markers,
        &users,
        &bases,
        &start,
        i,
        out,
    )
}

// An element written to an output that has room for it.
fn put(conditions: usize, element: Element, out: &mut [u8]) -> usize
    requires { length (text_of conditions element) ≤ length out.old }
    ensures { Puts (text_of conditions element) out.old result out.new }
{
    refusal::value_of(pnml::write(conditions, element, out))
}

// The text of the element at a place, with the place after it.
pub fn write<'a>(
    table: &'a [u8],
    events: usize,
    conditions: usize,
    transitions: usize,
    markers: &'a [u32],
    users: &'a [u32],
    bases: &'a [u32],
    start: &'a [u8],
    place: Place,
    marks: &mut [u32],
    uses: &mut [u32],
    starts: &mut [u32],
    sizes: &mut [u32],
    out: &mut [u8],
) -> Written
    requires ready { Ready table.now events conditions transitions markers.now users.now bases.now start.now × Sized marks.old uses.old starts.old sizes.old }
    requires stands { Stands table.now markers.now users.now bases.now marks.old uses.old starts.old sizes.old place × (goes_on place ≡ true) × (most_bytes ≤ length out.old) }
    ensures wrote { Puts (element_text table.now (index_at (net_of table.now) place)) out.old result.count out.new }
    ensures moved { Follows table.now markers.now users.now bases.now marks.new uses.new starts.new sizes.new place result.next }
{
    let element = export_places::element_at(table, conditions, start, place, &starts[..]);
    let count = put(conditions, element, out);
    let next = export_places::next_place(
        table,
        events,
        conditions,
        transitions,
        markers,
        users,
        bases,
        place,
        marks,
        uses,
        starts,
        sizes,
    );
    Written { count, next }
}
