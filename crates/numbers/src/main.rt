// Walks the unfolded conditions' and events' numbers of the nets on standard input to what stands behind them and back, one line for
// each net, which stands there as one letter, a byte that tells how many numbers are passed over after each one walked (0 in all but
// the net of most conditions), the length of its table in two bytes, and the table.
#![tactic(auto)]

use conditions::ConditionOrigin;
use refusal::{UnfoldedCondition, UnfoldedEvent};
use std::io;

// Whether an unfolded event's number comes back from its event and markers.
fn event_back(table: &[u8], j: u16) -> bool {
    let Ok(origin) = events::event_origin(table, UnfoldedEvent(j)) else {
        return false;
    };
    let number = event_numbers::event_number(table, origin.event, origin.colour);
    matches!(number, Ok(k) if k == j as usize)
}

// Whether an unfolded condition's number comes back from its condition, or from that with its marker and user.
fn condition_back(table: &[u8], j: u16) -> bool {
    let number = match conditions::condition_origin(table, UnfoldedCondition(j)) {
        Ok(ConditionOrigin::Ordinary(b)) => condition_numbers::ordinary_number(table, b),
        Ok(ConditionOrigin::Copy(b, m, u)) => condition_numbers::copy_number(table, b, m, u),
        Err(refusal) => Err(refusal),
    };
    matches!(number, Ok(k) if k == j as usize)
}

// Whether one number comes back, as an event's or as a condition's.
fn back(table: &[u8], events: bool, j: u16) -> bool {
    if events {
        event_back(table, j)
    } else {
        condition_back(table, j)
    }
}

// Whether all numbers come back, where after each so many are passed over.
fn all_back(table: &[u8], events: bool, skip: u8, count: usize) -> bool {
    for j in (0..count).step_by(1 + skip as usize) {
        let Ok(number) = u16::try_from(j) else {
            return false;
        };
        if !back(table, events, number) {
            return false;
        }
    }
    true
}

// Whether they do, in words.
fn back_in_words(table: &[u8], events: bool, skip: u8, count: usize) -> &'static str {
    if all_back(table, events, skip, count) {
        "all back"
    } else {
        "not all back"
    }
}

// The event behind the last number.
fn last(rt: &impl Print, table: &[u8], count: usize) -> io::Result<()> {
    let Some(number) = count.checked_sub(1).and_then(|j| u16::try_from(j).ok()) else {
        return Ok(());
    };
    if let Ok(origin) = events::event_origin(table, UnfoldedEvent(number)) {
        print!(rt; ", event {} is {number}", origin.event.0)?;
    }
    Ok(())
}

// The line of a table that unfolds to so many conditions.
fn unfolded(rt: &impl Print, table: &[u8], skip: u8, conditions: usize) -> io::Result<()> {
    let count = refusal::value_of(unfolding::event_count(table));
    let conditions_back = back_in_words(table, false, skip, conditions);
    let events_back = back_in_words(table, true, skip, count);
    print!(rt; "{conditions} conditions, {conditions_back}, {count} events")?;
    last(rt, table, count)?;
    println!(rt; ", {events_back}")
}

// The line of one net.
fn net(rt: &impl Print, letter: u8, skip: u8, table: &[u8]) -> io::Result<()> {
    print!(rt; "net ")?;
    rt.write_all(&[letter])?;
    print!(rt; ": ")?;
    match unfolding::condition_count(table) {
        Ok(n) => unfolded(rt, table, skip, n),
        Err(refusal) => println!(rt; "{refusal}"),
    }
}

// The nets one after the other; what is cut off at the end stands for zeros.
fn all(rt: &impl Print, nets: &[u8]) -> io::Result<()> {
    let mut left = nets;
    while !left.is_empty() {
        let length = words::word(left, 2) as usize;
        let table = records::part_of(left, 4, length);
        net(rt, words::byte(left, 0), words::byte(left, 1), table)?;
        left = left.split_at(left.len().min(4 + length)).1;
    }
    Ok(())
}

fn main(rt: HostRuntime) -> io::Result<()> {
    let mut buffer = [0u8; 65536];
    let mut input = rt.stdin();
    let n = filling::read_full(&mut input, &mut buffer);
    all(&rt, &buffer[..n])
}
