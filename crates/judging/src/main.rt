// Judges net A's table and a damaged one for each of the refusals 1 to 9, as docs/REFUSALS.md lists them, then tables with a Rule
// record, a line for each; run by the gate.
#![tactic(auto)]

ghost use Rattle.std.specs.Prelude.{◌<◌};

use std::io;

// One line: the number of events, or the refusal's number and place.
fn verdict(rt: &impl Print, table: &[u8]) -> io::Result<()> {
    match table::judge(table) {
        Ok(events) => println!(rt; "fine {events}"),
        Err(refusal) => println!(rt; "{refusal}"),
    }
}

// Net A's table, byte for byte as docs/FORMAT.md has it.
fn net_a() -> [u8; 54] {
    *b"\x04\x00\x01\x00\x00\x00\x01\x00\x0a\x00\x02\x00\x01\x00\x02\x00\x00\x00\x01\x00\x02\x00\x0a\x00\x02\x00\x02\x00\x01\x00\x01\x00\x02\x00\x03\x00\x08\x00\x02\x00\x01\x00\x01\x00\x03\x00\x01\x00\x02\x00\x03\x00\x00\x00"
}

// Net A's table with one byte changed.
fn changed(rt: &impl Print, at: usize, value: u8) -> io::Result<()>
    requires { at < 54 }
{
    let mut table = net_a();
    table[at] = value;
    verdict(rt, &table)
}

// Net A's table whole, without its last byte, and none of it.
fn cut(rt: &impl Print) -> io::Result<()> {
    let table = net_a();
    verdict(rt, &table)?;
    verdict(
        rt,
        b"\x04\x00\x01\x00\x00\x00\x01\x00\x0a\x00\x02\x00\x01\x00\x02\x00\x00\x00\x01\x00\x02\x00\x0a\x00\x02\x00\x02\x00\x01\x00\x01\x00\x02\x00\x03\x00\x08\x00\x02\x00\x01\x00\x01\x00\x03\x00\x01\x00\x02\x00\x03\x00\x00",
    )?;
    verdict(rt, b"")
}

// Net A's table with the preconditions of event 1 exchanged.
fn turned(rt: &impl Print) -> io::Result<()> {
    let mut table = net_a();
    table[30] = 2;
    table[32] = 1;
    verdict(rt, &table)
}

// Net A's table with a first event whose lists are both empty, and with one whose length is right only modulo 65,536.
fn untouched(rt: &impl Print) -> io::Result<()> {
    verdict(
        rt,
        b"\x04\x00\x01\x00\x00\x00\x01\x00\x04\x00\x02\x00\x00\x00\x00\x00\x0a\x00\x02\x00\x01\x00\x02\x00\x00\x00\x01\x00\x02\x00\x0a\x00\x02\x00\x02\x00\x01\x00\x01\x00\x02\x00\x03\x00\x08\x00\x02\x00\x01\x00\x01\x00\x03\x00\x01\x00\x02\x00\x03\x00\x00\x00",
    )?;
    verdict(
        rt,
        b"\x04\x00\x01\x00\x00\x00\x01\x00\x04\x00\x02\x00\x00\x80\x00\x00\x0a\x00\x02\x00\x01\x00\x02\x00\x00\x00\x01\x00\x02\x00\x0a\x00\x02\x00\x02\x00\x01\x00\x01\x00\x02\x00\x03\x00\x08\x00\x02\x00\x01\x00\x01\x00\x03\x00\x01\x00\x02\x00\x03\x00\x00\x00",
    )
}

// A table of one ordinary condition and 257 events that mark it, one event too many.
fn crowded() -> [u8; 2579] {
    let mut table = [0u8; 2579];
    table[0] = 1;
    table[2] = 1;
    for event in table[5..2575].chunks_exact_mut(10) {
        event[0] = 6;
        event[2] = 2;
        event[6] = 1;
    }
    table[2577] = 3;
    table
}

// Seventeen persistent conditions, all of them preconditions of one event, one too many.
fn greedy(rt: &impl Print) -> io::Result<()> {
    verdict(
        rt,
        b"\x11\x00\x01\x00\x01\x01\x01\x01\x01\x01\x01\x01\x01\x01\x01\x01\x01\x01\x01\x01\x01\x26\x00\x02\x00\x11\x00\x00\x00\x00\x00\x01\x00\x02\x00\x03\x00\x04\x00\x05\x00\x06\x00\x07\x00\x08\x00\x09\x00\x0a\x00\x0b\x00\x0c\x00\x0d\x00\x0e\x00\x0f\x00\x10\x00\x00\x00\x03\x00",
    )
}

// Net A's table with one byte more.
fn longer(rt: &impl Print) -> io::Result<()> {
    verdict(
        rt,
        b"\x04\x00\x01\x00\x00\x00\x01\x00\x0a\x00\x02\x00\x01\x00\x02\x00\x00\x00\x01\x00\x02\x00\x0a\x00\x02\x00\x02\x00\x01\x00\x01\x00\x02\x00\x03\x00\x08\x00\x02\x00\x01\x00\x01\x00\x03\x00\x01\x00\x02\x00\x03\x00\x00\x00\x00",
    )
}

// A Rule record before one ordinary condition, and cut short, of length 2, with byte 2, twice, and after the Conditions record.
fn ruled(rt: &impl Print) -> io::Result<()> {
    verdict(
        rt,
        b"\x01\x00\x06\x00\x01\x01\x00\x01\x00\x00\x00\x00\x03\x00",
    )?;
    verdict(rt, b"\x01\x00\x06\x00")?;
    verdict(
        rt,
        b"\x02\x00\x06\x00\x01\x00\x01\x00\x01\x00\x00\x00\x00\x03\x00",
    )?;
    verdict(
        rt,
        b"\x01\x00\x06\x00\x02\x01\x00\x01\x00\x00\x00\x00\x03\x00",
    )?;
    verdict(
        rt,
        b"\x01\x00\x06\x00\x01\x01\x00\x06\x00\x01\x01\x00\x01\x00\x00\x00\x00\x03\x00",
    )?;
    verdict(
        rt,
        b"\x01\x00\x01\x00\x00\x01\x00\x06\x00\x01\x00\x00\x03\x00",
    )
}

fn main(rt: HostRuntime) -> io::Result<()> {
    cut(&rt)?;
    changed(&rt, 10, 7)?;
    changed(&rt, 12, 2)?;
    changed(&rt, 6, 2)?;
    turned(&rt)?;
    changed(&rt, 52, 4)?;
    let table = crowded();
    verdict(&rt, &table)?;
    untouched(&rt)?;
    greedy(&rt)?;
    longer(&rt)?;
    ruled(&rt)
}
