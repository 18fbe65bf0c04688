// The start of the unfolding, written to a lent output.
#![tactic(auto)]

ghost use Rattle.std.specs.Prelude.{◌≡◌, ◌++◌, length, drop, Ok};
ghost use Rattle.model.specs.Net.{begin};
ghost use Rattle.model.specs.Lent.{bytes};
ghost use Rattle.model.specs.Unfolding.{basic};
ghost use Rattle.table.specs.Walk.{judge_of};
ghost use Rattle.table.specs.Decoded.{net_of};
ghost use Rattle.copies.specs.Writing.{Roomy};
ghost use Rattle.starting.specs.Calls.{unfolded_start_of, unfolded_started_of};

use refusal::Refusal;

// The start of the unfolding of a table that is laid out, over the first bytes of an output that has room: no event has occurred, and
// what holds is what held at the start.
fn write_start<'a>(
    table: &'a [u8],
    events: usize,
    users: &'a [u32],
    bases: &'a [u32],
    places: &mut [u32],
    out: &mut [u8],
)
    requires roomy { Roomy table.now users.now bases.now (length out.old) }
    requires table_value { judge_of table.now ≡ Ok events }
    requires places_len { length places.old ≡ 256 }
    ensures { out.new ≡ bytes (basic (net_of table.now)).conditions (begin (basic (net_of table.now))) ++ drop (basic (net_of table.now)).conditions out.old }
{
    let held = played::start_held(table, events);
    let seen = &table[..0];
    copies::write_copies(table, events, users, bases, held, held, seen, places, out);
}

// The start of the unfolding; fine: the number of unfolded conditions.
pub fn unfolded_start(table: &[u8], out: &mut [u8]) -> Result<usize, Refusal>
    ensures answer { result ≡ unfolded_start_of table.now (length out.old) }
    ensures after { out.new ≡ unfolded_started_of table.now out.old }
{
    let mut markers = [0u32; 256];
    let mut users = [0u32; 256];
    let mut bases = [0u32; 257];
    let events = layout::lay_out(table, &mut markers, &mut users, &mut bases)?;
    let count = tally::number(&bases, records::conditions(table) as usize) as usize;
    if out.len() < count {
        return refusal::refused(16, count);
    }
    write_start(table, events, &users, &bases, &mut markers, out);
    Ok(count)
}
