// The unfolded marking that a lift or an unfolded run ends in, written to a lent output.
#![tactic(auto)]

ghost use Rattle.std.specs.Prelude.{◌≡◌, length};
ghost use Rattle.model.specs.Lent.{marking};
ghost use Rattle.model.specs.Unfolding.{basic};
ghost use Rattle.refusal.specs.Answer.{fitting, written};
ghost use Rattle.table.specs.Decoded.{net_of};
ghost use Rattle.copies.specs.Copies.{copies_of};
ghost use Rattle.ends.specs.Shown.{Shown};
ghost use Rattle.ends.specs.Calls.{unfolded_replay_of, unfolded_replayed_of, lift_end_of, lift_ended_of};

use refusal::Refusal;

// The unfolded marking of a table that is laid out, over the first bytes of an output that has room; fine: their number.
fn write_marking<'a>(
    table: &'a [u8],
    events: usize,
    users: &'a [u32],
    bases: &'a [u32],
    state: &'a [u8],
    seen: &'a [u8],
    places: &mut [u32],
    out: &mut [u8],
) -> Result<usize, Refusal>
    requires shown { Shown table.now events users.now bases.now state.now }
    requires places_len { length places.old ≡ 256 }
    ensures answer { result ≡ fitting (basic (net_of table.now)).conditions (length out.old) }
    ensures after { out.new ≡ written result (copies_of (net_of table.now) (marking state.now) (marking seen.now)) out.old }
{
    let count = tally::number(bases, records::conditions(table) as usize) as usize;
    if out.len() < count {
        return refusal::refused(16, count);
    }
    let begun = played::start_held(table, events);
    let held = held::gather(state);
    copies::write_copies(table, events, users, bases, begun, held, seen, places, out);
    Ok(count)
}

// An unfolded run replayed from the unfolded start; the unfolded marking at its end is written to a lent output.
pub fn unfolded_replay<'a>(
    table: &'a [u8],
    lifted: &'a [u16],
    end: &mut [u8],
) -> Result<usize, Refusal>
    ensures answer { result ≡ unfolded_replay_of table.now lifted.now (length end.old) }
    ensures after { end.new ≡ unfolded_replayed_of table.now lifted.now end.old }
{
    let mut markers = [0u32; 256];
    let mut users = [0u32; 256];
    let mut bases = [0u32; 257];
    let mut before = [0u32; 257];
    let events = across::lay_out_run(
        table,
        lifted.len(),
        &mut markers,
        &mut users,
        &mut bases,
        &mut before,
    )?;
    let mut state = [0u8; 256];
    let mut seen = [0u8; 256];
    project::replay_lifted(
        table, events, &markers, &users, &before, lifted, &mut state, &mut seen,
    )?;
    write_marking(
        table,
        events,
        &users,
        &bases,
        &state,
        &seen,
        &mut markers,
        end,
    )
}

// A run lifted; the unfolded marking at the end of its lift is written to a lent output.
pub fn lift_end<'a>(table: &'a [u8], run: &'a [u16], out: &mut [u8]) -> Result<usize, Refusal>
    ensures answer { result ≡ lift_end_of table.now run.now (length out.old) }
    ensures after { out.new ≡ lift_ended_of table.now run.now out.old }
{
    let mut lifted = [0u16; 4096];
    let steps = lift::lift(table, run, &mut lifted)?;
    unfolded_replay(table, &lifted[0..steps], out)
}
