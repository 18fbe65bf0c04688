// Exports the unfolded net of a table: reads net.bin and writes it element by element, or the one line of what is refused.
#![tactic(auto)]

ghost use Rattle.std.specs.Prelude.{◌≡◌, ◌≤◌, length, IfOk};
ghost use Rattle.elements.specs.Needs.{Ready};

use elements::Opened;
use export_places::Place;
use std::io;

// The most bytes that a table has.
const MOST_BYTES: usize = 264973;

// So many bytes of text leave room for one more element.
const MOST_GATHERED: usize = 65280;

// One more element gathered, and all of them written out where there may be no room for another or none follows; how many bytes are still
// gathered.
fn gather(
    rt: &impl Print,
    element: &[u8],
    count: usize,
    gathered: usize,
    place: Place,
    text: &mut [u8],
) -> io::Result<usize>
    requires { (count ≤ length element.now) × (length element.now ≡ 256) × (gathered ≤ 65280) × (length text.old ≡ 65536) }
    ensures { IfOk result (λ n. n ≤ 65280) }
{
    let end = spelling::put_text(text, gathered, &element[0..count]);
    if export_places::goes_on(place) {
        if end <= MOST_GATHERED {
            return Ok(end);
        }
    }
    rt.write_all(&text[0..end])?;
    Ok(0)
}

// The export of what was opened, written out many elements at a time.
fn show<'a>(
    rt: &impl Print,
    table: &'a [u8],
    opened: Opened,
    markers: &'a [u32],
    users: &'a [u32],
    bases: &'a [u32],
    start: &'a [u8],
) -> io::Result<()>
    requires { Ready table.now opened.events opened.conditions opened.transitions markers.now users.now bases.now start.now }
{
    let mut marks = [0u32; 256];
    let mut uses = [0u32; 256];
    let mut starts = [0u32; 2048];
    let mut sizes = [0u32; 2048];
    let mut element = [0u8; 256];
    let mut text = [0u8; 65536];
    let mut gathered: usize = 0;
    let mut place = Place::Opens;
    while export_places::goes_on(place) {
        let written = elements::write(
            table,
            opened.events,
            opened.conditions,
            opened.transitions,
            markers,
            users,
            bases,
            start,
            place,
            &mut marks,
            &mut uses,
            &mut starts,
            &mut sizes,
            &mut element,
        );
        place = written.next;
        gathered = gather(rt, &element, written.count, gathered, place, &mut text)?;
    }
    Ok(())
}

// The export of the bytes of a table's file.
fn export(rt: &impl Print, table: &[u8]) -> io::Result<()> {
    if MOST_BYTES < table.len() {
        return files::refuse(rt, refusal::refused(19, 0));
    }
    let mut markers = [0u32; 256];
    let mut users = [0u32; 256];
    let mut bases = [0u32; 257];
    let mut start = [0u8; 65535];
    match elements::open(table, &mut markers, &mut users, &mut bases, &mut start) {
        Ok(opened) => show(rt, table, opened, &markers, &users, &bases, &start),
        Err(refusal) => files::refuse(rt, Err(refusal)),
    }
}

fn main(rt: HostRuntime) -> io::Result<()> {
    let mut net = [0u8; 264974];
    let n = files::read_file(&rt, b"net.bin", &mut net);
    export(&rt, &net[..n])
}
