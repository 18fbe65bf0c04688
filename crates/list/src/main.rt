// Lists a run of a table: reads net.bin and run.bin and writes the listing piece by piece, or the one line of what is refused.
#![tactic(auto)]

ghost use Rattle.lines.specs.Needs.{Ready};
ghost use Rattle.lines.specs.declared.Place.TheVariants.{Start};

use lines::Place;
use refusal::Refusal;
use std::io;

// The listing of what was opened, written out from the start on.
fn show<'a>(
    rt: &impl Print,
    table: &'a [u8],
    events: usize,
    offsets: &'a [usize],
    steps: &'a [u16],
    lifted: &'a [u16],
    end: &'a [u8],
    marking: &mut [u8],
) -> io::Result<()>
    requires { Ready table.now events offsets.now steps.now lifted.now end.now marking.old Start }
{
    let mut text = [0u8; 2048];
    let mut place = Place::Start;
    while lines::goes_on(place) {
        let written = lines::write(
            table, events, offsets, steps, lifted, end, place, marking, &mut text,
        );
        let count = written.count;
        rt.write_all(&text[0..count])?;
        place = written.next;
    }
    Ok(())
}

// The listing of the bytes of the two files.
fn list<'a>(rt: &impl Print, net: &'a [u8], run: &'a [u8]) -> io::Result<()> {
    let mut steps = [0u16; 4096];
    let mut lifted = [0u16; 4096];
    let mut offsets = [0usize; 256];
    let mut marking = [0u8; 256];
    let mut end = [0u8; 65535];
    match opening::open_files(
        net,
        run,
        &mut steps,
        &mut lifted,
        &mut offsets,
        &mut marking,
        &mut end,
    ) {
        Ok(opened) => show(
            rt,
            net,
            opened.events,
            &offsets,
            &steps[0..opened.steps],
            &lifted[0..opened.steps],
            &end[0..opened.unfolded],
            &mut marking[0..opened.conditions],
        ),
        Err(refusal) => files::refuse(rt, Err(refusal)),
    }
}

fn main(rt: HostRuntime) -> io::Result<()> {
    let mut net = [0u8; 65537];
    let mut run = [0u8; 8197];
    let n = files::read_file(&rt, b"net.bin", &mut net);
    let m = files::read_file(&rt, b"run.bin", &mut run);
    list(&rt, &net[..n], &run[..m])
}
