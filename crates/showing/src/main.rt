// Shows what the calls tell that are not for C: reads net.bin, run.bin and marking.bin and writes a reader's walk over the table, its
// events, start and conditions with one past the last, and the run replayed from the lent marking; run by the gate.
#![tactic(auto)]

use parts::Persistence;
use refusal::{Refusal, TableCondition, TableEvent};
use std::io;

// One answer to the end of its line: what it tells, or the refusal.
fn tell(rt: &impl Print, answer: Result<usize, Refusal>) -> io::Result<()> {
    print!(rt; ": ")?;
    match answer {
        Ok(value) => println!(rt; "fine {value}"),
        Err(refusal) => files::refuse(rt, Err(refusal)),
    }
}

// A reader's walk over the records, each with its place and the place after it, up to the refusal that ends it.
fn walk(rt: &impl Print, table: &[u8]) -> io::Result<()> {
    let mut at: usize = 0;
    for _ in 0..260 {
        print!(rt; "record at {at}")?;
        tell(rt, reader::record_at(table, at))?;
        let next = reader::next_at(table, at);
        if next == at {
            return Ok(());
        }
        at = next;
    }
    Ok(())
}

// The second record, as a reader that is moved once comes to it.
fn second(rt: &impl Print, table: &[u8]) -> io::Result<()> {
    print!(rt; "second at {}", reader::second_place(table))?;
    tell(rt, reader::second(table))
}

// The conditions of a shown part, and after a bar what is told past its end.
fn list(rt: &impl Print, part: &[u8]) -> io::Result<()> {
    let count = part.len() / 2;
    for k in 0..count {
        print!(rt; " {}", parts::condition_in(part, k).0)?;
    }
    println!(rt; " | {}", parts::condition_in(part, count).0)
}

// An event that is asked for, and its two lists as parts of the table.
fn event(rt: &impl Print, table: &[u8], e: u16) -> io::Result<()> {
    print!(rt; "event {e}")?;
    tell(rt, parts::asked(table, TableEvent(e)))?;
    print!(rt; "pre")?;
    list(rt, parts::pre_part(table, TableEvent(e)))?;
    print!(rt; "post")?;
    list(rt, parts::post_part(table, TableEvent(e)))
}

// The events up to one past the last, and the highest number.
fn events(rt: &impl Print, table: &[u8]) -> io::Result<()> {
    let count = refusal::value_of(table::event_count(table));
    for e in 0..=count.min(256) as u16 {
        event(rt, table, e)?;
    }
    event(rt, table, 65535)
}

// Whether a condition is persistent, to the end of its line.
fn kind(rt: &impl Print, answer: Result<Persistence, Refusal>) -> io::Result<()> {
    match answer {
        Ok(Persistence::Ordinary) => println!(rt; "ordinary"),
        Ok(Persistence::Persistent) => println!(rt; "persistent"),
        Err(refusal) => files::refuse(rt, Err(refusal)),
    }
}

// A condition that is asked for, and whether it is persistent.
fn condition(rt: &impl Print, table: &[u8], b: u16) -> io::Result<()> {
    print!(rt; "condition {b}")?;
    tell(rt, parts::asked_condition(table, TableCondition(b)))?;
    kind(rt, parts::persistent(table, TableCondition(b)))
}

// The conditions up to one past the last, and the highest number.
fn conditions(rt: &impl Print, table: &[u8]) -> io::Result<()> {
    let count = refusal::value_of(table::condition_count(table));
    for b in 0..=count.min(256) as u16 {
        condition(rt, table, b)?;
    }
    condition(rt, table, 65535)
}

// A run replayed from a lent marking, and its end in 200 lent bytes; 9 stands where nothing was written.
fn replayed<'a>(
    rt: &impl Print,
    table: &'a [u8],
    marking: &'a [u8],
    run: &'a [u16],
) -> io::Result<()> {
    let mut end = [9u8; 200];
    print!(rt; "replay_from")?;
    tell(rt, replay::replay_from(table, marking, run, &mut end))?;
    print!(rt; "end")?;
    for byte in end {
        print!(rt; " {byte}")?;
    }
    println!(rt; "")
}

// The same of a run's file, or its refusal.
fn replayed_file<'a>(
    rt: &impl Print,
    table: &'a [u8],
    marking: &'a [u8],
    run: &'a [u8],
) -> io::Result<()> {
    let mut steps = [0u16; 4096];
    match runs::read_run(run, &mut steps) {
        Ok(count) => replayed(rt, table, marking, &steps[0..count]),
        Err(refusal) => {
            print!(rt; "run")?;
            tell(rt, Err(refusal))
        }
    }
}

// Everything that is told of a table.
fn show(rt: &impl Print, table: &[u8]) -> io::Result<()> {
    walk(rt, table)?;
    second(rt, table)?;
    events(rt, table)?;
    print!(rt; "start")?;
    list(rt, parts::marking_part(table))?;
    conditions(rt, table)
}

fn main(rt: HostRuntime) -> io::Result<()> {
    let mut net = [0u8; 65537];
    let mut run = [0u8; 8197];
    let mut marking = [0u8; 300];
    let n = files::read_file(&rt, b"net.bin", &mut net);
    let m = files::read_file(&rt, b"run.bin", &mut run);
    let k = files::read_file(&rt, b"marking.bin", &mut marking);
    show(&rt, &net[..n])?;
    replayed_file(&rt, &net[..n], &marking[..k], &run[..m])
}
