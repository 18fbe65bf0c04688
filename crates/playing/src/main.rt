// Plays nets A, B and E, and B under the old rule, and writes each answer and what it left in lent memory; run by the gate.
#![tactic(auto)]

use refusal::{Refusal, TableEvent};
use std::{fmt, io};

// An answer in words: the elements written, or the refusal.
#[derive(Drop)]
struct Told(Result<usize, Refusal>);

impl fmt::Display for Told {
    fn fmt<W: fmt::Write>(&self, f: &mut fmt::Formatter<W>) -> fmt::Result {
        match self.0 {
            Ok(count) => write!(f, "fine {count}"),
            Err(refusal) => write!(f, "{refusal}"),
        }
    }
}

// Four bytes of lent memory in words; 9 stands where nothing was written.
#[derive(Drop)]
struct Lent([u8; 4]);

impl fmt::Display for Lent {
    fn fmt<W: fmt::Write>(&self, f: &mut fmt::Formatter<W>) -> fmt::Result {
        let [a, b, c, d] = self.0;
        write!(f, "{a} {b} {c} {d}")
    }
}

// Concession of an event at a marking.
fn concedes<'a>(rt: &impl Print, table: &'a [u8], marking: &'a [u8], event: u16) -> io::Result<()> {
    let answer = Told(game::concession(table, marking, TableEvent(event)));
    println!(rt; "concession {answer}")
}

// An event fired at a marking.
fn fires(rt: &impl Print, table: &[u8], marking: &mut [u8], event: u16) -> io::Result<()> {
    let answer = Told(game::fire(table, marking, TableEvent(event)));
    print!(rt; "fire {answer}: ")
}

// A run replayed from the table's marking, and its end.
fn replays<'a>(rt: &impl Print, table: &'a [u8], run: &'a [u16]) -> io::Result<()> {
    let mut end = [9u8; 4];
    let answer = Told(replay::replay(table, run, &mut end));
    println!(rt; "replay {answer}: {}", Lent(end))
}

// A run replayed from a lent marking, and its end.
fn replays_from<'a>(
    rt: &impl Print,
    table: &'a [u8],
    marking: &'a [u8],
    run: &'a [u16],
) -> io::Result<()> {
    let mut end = [9u8; 4];
    let answer = Told(replay::replay_from(table, marking, run, &mut end));
    println!(rt; "replay_from {answer}: {}", Lent(end))
}

// The run 0, 1, 2 with two of its steps exchanged, and the run after it.
fn exchanges(rt: &impl Print, table: &[u8], k: usize) -> io::Result<()> {
    let mut run = [0u16, 1, 2];
    let answer = Told(exchange::exchange(table, &mut run, k));
    println!(rt; "exchange {answer}: {} {} {}", run[0], run[1], run[2])
}

// Net A: conditions 0, 1, [2], 3; 0: {0} to {1,2}, 1: {1,2} to {3}, 2: {3} to {1}; start {0}.
fn net_a(rt: &impl Print) -> io::Result<()> {
    let table =
        *b"\x04\x00\x01\x00\x00\x00\x01\x00\x0a\x00\x02\x00\x01\x00\x02\x00\x00\x00\x01\x00\x02\x00\x0a\x00\x02\x00\x02\x00\x01\x00\x01\x00\x02\x00\x03\x00\x08\x00\x02\x00\x01\x00\x01\x00\x03\x00\x01\x00\x02\x00\x03\x00\x00\x00";
    replays(rt, &table, &[0u16, 1, 2, 1])?;
    replays(rt, &table, &[0u16, 1, 1])?;
    replays(rt, &table, &[0u16, 7])?;
    replays(rt, &table, &[])?;
    concedes(rt, &table, &[1, 0, 1, 0], 0)?;
    concedes(rt, &table, &[1, 1, 0, 0], 0)?;
    concedes(rt, &table, &[0, 1, 0, 0], 1)?;
    concedes(rt, &table, &[1, 0, 0, 0], 3)?;
    concedes(rt, &table, &[1, 0, 0], 0)?;
    concedes(rt, &table, &[1, 2, 0, 0], 0)?;
    let mut fired: [u8; 4] = [1, 0, 1, 0];
    fires(rt, &table, &mut fired, 0)?;
    println!(rt; "{}", Lent(fired))?;
    let mut kept: [u8; 4] = [1, 1, 0, 0];
    fires(rt, &table, &mut kept, 0)?;
    println!(rt; "{}", Lent(kept))?;
    replays_from(rt, &table, &[0, 1, 1, 0], &[1u16])?;
    replays_from(rt, &table, &[0, 1, 1, 0], &[1u16, 1])?;
    exchanges(rt, &table, 0)?;
    exchanges(rt, &table, 2)
}

// Net B: conditions 0, [1]; 0: {0} to {0,1}, 1: {1} to {}; start {0}.
fn net_b(rt: &impl Print) -> io::Result<()> {
    let table =
        *b"\x02\x00\x01\x00\x00\x01\x0a\x00\x02\x00\x01\x00\x02\x00\x00\x00\x00\x00\x01\x00\x06\x00\x02\x00\x01\x00\x00\x00\x01\x00\x02\x00\x03\x00\x00\x00";
    let mut fired: [u8; 2] = [1, 0];
    fires(rt, &table, &mut fired, 0)?;
    println!(rt; "{}", Lent([fired[0], fired[1], 9, 9]))?;
    replays(rt, &table, &[0u16, 0])?;
    replays(rt, &table, &[1u16])
}

// Net B after a Rule record: under the old rule event 0, which takes condition 0 and puts it, is in contact.
fn net_b_old(rt: &impl Print) -> io::Result<()> {
    let table =
        *b"\x01\x00\x06\x00\x01\x02\x00\x01\x00\x00\x01\x0a\x00\x02\x00\x01\x00\x02\x00\x00\x00\x00\x00\x01\x00\x06\x00\x02\x00\x01\x00\x00\x00\x01\x00\x02\x00\x03\x00\x00\x00";
    let mut kept: [u8; 2] = [1, 0];
    fires(rt, &table, &mut kept, 0)?;
    println!(rt; "{}", Lent([kept[0], kept[1], 9, 9]))?;
    let mut fired: [u8; 2] = [1, 1];
    fires(rt, &table, &mut fired, 1)?;
    println!(rt; "{}", Lent([fired[0], fired[1], 9, 9]))?;
    replays(rt, &table, &[0u16, 0])
}

// Net E: conditions 0, 1, [2]; 0: {0} to {2}, 1: {1} to {2}, 2: {2} to {}; start {0,1}, then {0,1,2}.
fn net_e(rt: &impl Print) -> io::Result<()> {
    let table =
        *b"\x03\x00\x01\x00\x00\x00\x01\x08\x00\x02\x00\x01\x00\x01\x00\x00\x00\x02\x00\x08\x00\x02\x00\x01\x00\x01\x00\x01\x00\x02\x00\x06\x00\x02\x00\x01\x00\x00\x00\x02\x00\x04\x00\x03\x00\x00\x00\x01\x00";
    replays(rt, &table, &[0u16, 1, 2])?;
    exchanges(rt, &table, 0)?;
    let marked =
        *b"\x03\x00\x01\x00\x00\x00\x01\x08\x00\x02\x00\x01\x00\x01\x00\x00\x00\x02\x00\x08\x00\x02\x00\x01\x00\x01\x00\x01\x00\x02\x00\x06\x00\x02\x00\x01\x00\x00\x00\x02\x00\x06\x00\x03\x00\x00\x00\x01\x00\x02\x00";
    exchanges(rt, &marked, 0)?;
    exchanges(rt, &marked, 18446744073709551615)?;
    replays(rt, &marked, &[1u16, 0, 2])
}

fn main(rt: HostRuntime) -> io::Result<()> {
    net_a(&rt)?;
    net_b(&rt)?;
    net_b_old(&rt)?;
    net_e(&rt)
}
