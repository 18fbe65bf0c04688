// Concession and firing of a table's events over a lent marking, once both are judged.
#![tactic(auto)]

ghost use Rattle.std.specs.Prelude.{◌≡◌, Ok};
ghost use Rattle.game.specs.Lent.{first_above};
ghost use Rattle.game.specs.Ready.{NoneAbove, ready_of};
ghost use Rattle.game.specs.Calls.{on_marking, concession_of, fire_of, fired_of};

use refusal::{Refusal, TableEvent};

// The bits of all bytes together, which no byte is above: a loop with no branch, so that many bytes are looked at at once.
fn together(state: &[u8]) -> u8
    ensures { NoneAbove state.now result }
{
    let mut bits: u8 = 0;
    for byte in state {
        bits |= *byte;
    }
    bits
}

// The index of the first byte above 1, or the length.
pub fn first_above(state: &[u8]) -> usize
    ensures { result ≡ first_above state.now }
{
    if together(state) <= 1 {
        return state.len();
    }
    let above = state.iter().position(|byte| 1 < *byte);
    above.unwrap_or(state.len())
}

// A table and a lent marking of it, both judged; fine: the number of events.
pub fn judge_lent<'a>(table: &'a [u8], marking: &'a [u8]) -> Result<usize, Refusal>
    ensures { result ≡ on_marking table.now marking.now Ok }
{
    let events = table::judge(table)?;
    let count = records::conditions(table) as usize;
    if marking.len() != count {
        return refusal::refused(18, count);
    }
    let above = first_above(marking);
    if above < marking.len() {
        return refusal::refused(18, above);
    }
    Ok(events)
}

// An event asked for at a lent marking; fine: the offset of its record.
fn ready<'a>(table: &'a [u8], marking: &'a [u8], e: u16) -> Result<usize, Refusal>
    ensures { result ≡ ready_of table.now marking.now e }
{
    let n = judge_lent(table, marking)?;
    if (e as usize) < n {
        Ok(table::offset(table, e))
    } else {
        refusal::refused(10, 0)
    }
}

// Whether an event has concession at a lent marking.
pub fn concession<'a>(
    table: &'a [u8],
    marking: &'a [u8],
    event: TableEvent,
) -> Result<usize, Refusal>
    ensures { result ≡ concession_of table.now marking.now event.0 }
{
    let at = ready(table, marking, event.0)?;
    step::test_at(table, at, marking)?;
    Ok(0)
}

// An event fired at a lent marking, over which the new one is written.
pub fn fire(table: &[u8], marking: &mut [u8], event: TableEvent) -> Result<usize, Refusal>
    ensures answer { result ≡ fire_of table.now marking.old event.0 }
    ensures after { marking.new ≡ fired_of table.now marking.old event.0 }
{
    let at = ready(table, &marking[..], event.0)?;
    let count = marking.len();
    step::step_at(table, at, marking)?;
    Ok(count)
}
