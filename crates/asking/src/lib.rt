// A table asked for what it says, written to a lent output: the conditions of an event's lists, and the marking at the start.
#![tactic(auto)]

ghost use Rattle.std.specs.Prelude.{◌≡◌, length};
ghost use Rattle.words.specs.Words.{words};
ghost use Rattle.refusal.specs.Answer.{fitting, written};
ghost use Rattle.asking.specs.Calls.{preconditions_of, preconditions_into, postconditions_of, postconditions_into, start_of, start_into};

use refusal::{Refusal, TableEvent};

// The numbers in a part of a table over the first ones of a lent output, where it has room.
fn write_list(part: &[u8], out: &mut [u16]) -> Result<usize, Refusal>
    ensures answer { result ≡ fitting (length (words part.now)) (length out.old) }
    ensures after { out.new ≡ written result (words part.now) out.old }
{
    let count = part.len() / 2;
    if out.len() < count {
        return refusal::refused(16, count);
    }
    for (k, number) in out[..count].iter_mut().enumerate() {
        *number = words::word(part, 2 * k);
    }
    Ok(count)
}

// The preconditions of an event, ascending; fine: how many.
pub fn preconditions(table: &[u8], e: TableEvent, out: &mut [u16]) -> Result<usize, Refusal>
    ensures answer { result ≡ preconditions_of table.now e.0 (length out.old) }
    ensures after { out.new ≡ preconditions_into table.now e.0 out.old }
{
    let at = parts::asked(table, e)?;
    write_list(records::pre_at(table, at), out)
}

// The postconditions of an event, likewise.
pub fn postconditions(table: &[u8], e: TableEvent, out: &mut [u16]) -> Result<usize, Refusal>
    ensures answer { result ≡ postconditions_of table.now e.0 (length out.old) }
    ensures after { out.new ≡ postconditions_into table.now e.0 out.old }
{
    let at = parts::asked(table, e)?;
    write_list(records::post_at(table, at), out)
}

// The marking at the start, one byte for each condition; fine: how many.
pub fn start(table: &[u8], out: &mut [u8]) -> Result<usize, Refusal>
    ensures answer { result ≡ start_of table.now (length out.old) }
    ensures after { out.new ≡ start_into table.now out.old }
{
    let n = table::judge(table)?;
    let held = played::start_held(table, n);
    played::write_end(held, records::conditions(table) as usize, out)
}
