// A run of a judged table played on words: where its events stand, where it starts, step after step, and its end written to a lent
// output; and the start and a step on lent bytes.
#![tactic(auto)]

ghost use Rattle.std.specs.Prelude.{◌≡◌, ◌≤◌, length, replicate, Ok};
ghost use Rattle.model.specs.Net.{begin, stopping, fire};
ghost use Rattle.table.specs.Walk.{judge_of};
ghost use Rattle.table.specs.Decoded.{net_of};
ghost use Rattle.refusal.specs.Answer.{fitting, written};
ghost use Rattle.model.specs.Lent.{bytes, marking};
ghost use Rattle.held.specs.Held.{held_in};
ghost use Rattle.step.specs.Tests.{Keeps, Moves};
ghost use Rattle.step.specs.Steps.{stepped};
ghost use Rattle.stopping.specs.Table.{step_of};
ghost use Rattle.played.specs.Played.{Indexed, Playable, Plays};

use refusal::{Refusal, TableCondition};
use stopping::Cause;

// What a run comes to: how many conditions the table has, and the marking at its end.
#[derive(Clone, Copy)]
pub struct Ended {
    pub conditions: usize,
    pub held: [u64; 4],
}

// The offset of each event of a judged table, by its number.
pub fn fill(table: &[u8], n: usize, offsets: &mut [usize])
    requires { (judge_of table.now ≡ Ok n) × (n ≤ length offsets.old) }
    ensures { Indexed table.now n offsets.new }
{
    for event in table::events(table, n) {
        offsets[event.number] = event.at;
    }
}

// The marking at the start of a judged table, put into bytes that are all 0.
pub fn start(table: &[u8], n: usize, state: &mut [u8])
    requires { (judge_of table.now ≡ Ok n) × (state.old ≡ replicate 256 0) }
    ensures { state.new ≡ bytes 256 (begin (net_of table.now)) }
{
    let list = records::marking_at(table, table::offset(table, n as u16));
    step::set_all(&table[..0], list, 1, state);
}

// The marking at the start of a judged table.
pub fn start_held(table: &[u8], n: usize) -> [u64; 4]
    requires { judge_of table.now ≡ Ok n }
    ensures { held_in result ≡ begin (net_of table.now) }
{
    held::collect(records::marking_at(table, table::offset(table, n as u16)))
}

// One step of the game on lent bytes by the number of an event.
pub fn step_event<'a>(
    table: &'a [u8],
    n: usize,
    offsets: &'a [usize],
    e: u16,
    state: &mut [u8],
) -> Result<(), Cause<TableCondition>>
    requires { Playable table.now n offsets.now state.old }
    ensures answer { result ≡ step_of (stopping (net_of table.now) (marking state.old) e) }
    ensures after { state.new ≡ stepped (stopping (net_of table.now) (marking state.old) e) (bytes (length state.old) (fire (net_of table.now) (marking state.old) e)) state.old }
{
    if n <= (e as usize) {
        return Err(Cause::Unknown);
    }
    step::step_at(table, offsets[e as usize], state)
}

// One step of the game on words by the number of an event; fine: the marking after it.
fn move_event<'a>(
    table: &'a [u8],
    n: usize,
    offsets: &'a [usize],
    e: u16,
    kept: [u64; 4],
    held: [u64; 4],
) -> Result<[u64; 4], Cause<TableCondition>>
    requires { (judge_of table.now ≡ Ok n) × Indexed table.now n offsets.now × Keeps table.now kept }
    ensures { Moves (stopping (net_of table.now) (held_in held) e) (fire (net_of table.now) (held_in held) e) result }
{
    if n <= (e as usize) {
        return Err(Cause::Unknown);
    }
    step::move_at(table, offsets[e as usize], kept, held)
}

// A run of a judged table played from a marking; fine: the number of conditions, and the marking that it comes to.
pub fn play<'a>(
    table: &'a [u8],
    n: usize,
    offsets: &'a [usize],
    run: &'a [u16],
    start: [u64; 4],
) -> Result<Ended, Refusal>
    requires { (judge_of table.now ≡ Ok n) × Indexed table.now n offsets.now }
    ensures { Plays (net_of table.now) (held_in start) run.now result }
{
    if refusal::MOST_STEPS < run.len() {
        return refusal::refused(3, 0);
    }
    let kept = step::kept(table);
    let mut held = start;
    for (k, e) in run.iter().enumerate() {
        match move_event(table, n, offsets, *e, kept, held) {
            Ok(next) => held = next,
            Err(cause) => return Err(cause.at(k)),
        }
    }
    Ok(Ended {
        conditions: records::conditions(table) as usize,
        held,
    })
}

// The end of a run over the first bytes of a lent output, where it has room.
pub fn write_end(held: [u64; 4], count: usize, end: &mut [u8]) -> Result<usize, Refusal>
    ensures answer { result ≡ fitting count (length end.old) }
    ensures after { end.new ≡ written result (bytes count (held_in held)) end.old }
{
    if end.len() < count {
        return refusal::refused(16, count);
    }
    held::spread(held, count, end);
    Ok(count)
}
