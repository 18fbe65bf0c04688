// The projection of an unfolded run: its steps replayed over the table's marking and the events that have occurred, then read back.
#![tactic(auto)]

ghost use Rattle.std.specs.Prelude.{◌≡◌, ◌≤◌, ◌<◌, length, get_or, set, replicate};
ghost use Rattle.model.specs.Net.{fire};
ghost use Rattle.model.specs.Lent.{bytes, marking};
ghost use Rattle.refusal.specs.Answer.{value_of, fitting};
ghost use Rattle.table.specs.Decoded.{net_of};
ghost use Rattle.stopping.specs.Table as played;
ghost use Rattle.step.specs.Steps.{record_net, stepped};
ghost use Rattle.stopping.specs.Unfolded.{step_of};
ghost use Rattle.decided.specs.Decided.{unfolded_stop};
ghost use Rattle.decided.specs.Kept.{marker_at, Kept};
ghost use Rattle.project.specs.Walked.{Numbered, Underway, Coloured, Stepped, Fires, stops_at, Trying, Tried, Replayed, Replayable, Reading, Read};
ghost use Rattle.project.specs.Calls.{project_of, projected_of};

use refusal::{Refusal, TableCondition, UnfoldedCondition};
use stopping::Cause;

// The event whose record stands at an offset, fired on the bytes of a marking.
fn fire_at(table: &[u8], at: usize, state: &mut [u8])
    requires { Fires table.now at state.old }
    ensures { state.new ≡ bytes (length state.old) (fire (record_net table.now at) (marking state.old) 0) }
{
    let flags = records::flags(table);
    step::set_all(flags, records::pre_at(table, at), 0, state);
    step::set_all(&table[..0], records::post_at(table, at), 1, state);
}

// The event of an unfolded number, whose colour is laid out by condition.
fn lay_colour<'a>(
    table: &'a [u8],
    offsets: &'a [usize],
    markers: &'a [u32],
    before: &'a [u32],
    j: u32,
    places: &mut [u32],
    kept: &mut [u32],
) -> usize
    requires numbered { Numbered table.now offsets.now markers.now before.now }
    requires j_bound { j < get_or before.now (length offsets.now) 0 }
    requires kept { Kept (net_of table.now) places.old kept.old }
    ensures { Coloured (net_of table.now) j result places.new kept.new }
{
    let events = offsets.len();
    let e = across::event_of(before, events, j);
    let pre = records::pre_at(table, offsets[e]);
    let first = before[e];
    let weight = before[e + 1] - first;
    decided::choose(table, events, markers, pre, weight, j - first, places, kept);
    e
}

// The step of event e, whose record stands at an offset, with the markers that are kept for it: decided, and where nothing stops it
// fired and noted.
fn step_event<'a>(
    table: &'a [u8],
    at: usize,
    e: usize,
    users: &'a [u32],
    begun: &'a [u8],
    state: &mut [u8],
    seen: &mut [u8],
    places: &'a [u32],
    kept: &'a [u32],
) -> Result<(), Cause<TableCondition>>
    requires { Trying table.now users.now at e begun.now state.old seen.old places.now kept.now }
    ensures answer { result ≡ played.step_of (stops_at table.now e state.old seen.old places.now) }
    ensures after { state.new ≡ stepped (stops_at table.now e state.old seen.old places.now) (bytes (length state.old) (fire (record_net table.now at) (marking state.old) 0)) state.old }
    ensures noted { seen.new ≡ stepped (stops_at table.now e state.old seen.old places.now) (set seen.old e 1) seen.old }
{
    decided::decide(
        table,
        at,
        e,
        users,
        &state[..],
        begun,
        &seen[..],
        places,
        kept,
    )?;
    fire_at(table, at, state);
    seen[e] = 1;
    Ok(())
}

// The same for the event whose colour is laid out, with what stops it told by unfolded conditions.
fn step_coloured<'a>(
    table: &'a [u8],
    offsets: &'a [usize],
    markers: &'a [u32],
    users: &'a [u32],
    begun: &'a [u8],
    e: usize,
    state: &mut [u8],
    seen: &mut [u8],
    places: &'a [u32],
    kept: &'a [u32],
) -> Result<(), Cause<UnfoldedCondition>>
    requires { Tried table.now offsets.now markers.now users.now begun.now e state.old seen.old places.now kept.now }
    ensures answer { result ≡ step_of (unfolded_stop (net_of table.now) (marker_at (net_of table.now) places.now) e (stops_at table.now e state.old seen.old places.now)) }
    ensures after { state.new ≡ stepped (stops_at table.now e state.old seen.old places.now) (bytes (length state.old) (fire (record_net table.now (get_or offsets.now e 0)) (marking state.old) 0)) state.old }
    ensures noted { seen.new ≡ stepped (stops_at table.now e state.old seen.old places.now) (set seen.old e 1) seen.old }
{
    let at = offsets[e];
    let told = step_event(table, at, e, users, begun, state, seen, places, kept);
    located::locate(table, offsets.len(), markers, users, e, places, kept, told)
}

// Step k of an unfolded run: its event is found, its colour laid out and tested, and the event fired on the table's marking.
fn step_unfolded<'a>(
    table: &'a [u8],
    offsets: &'a [usize],
    markers: &'a [u32],
    users: &'a [u32],
    before: &'a [u32],
    begun: &'a [u8],
    lifted: &'a [u16],
    k: usize,
    state: &mut [u8],
    seen: &mut [u8],
    places: &mut [u32],
    kept: &mut [u32],
) -> Result<(), Cause<UnfoldedCondition>>
    requires underway { Underway table.now offsets.now markers.now users.now before.now begun.now lifted.now k state.old seen.old places.old kept.old }
    requires k_in_bounds { k < length lifted.now }
    ensures { Stepped (net_of table.now) lifted.now k result state.new seen.new places.new kept.new }
{
    let j = lifted[k] as u32;
    if before[offsets.len()] <= j {
        return Err(Cause::Unknown);
    }
    let e = lay_colour(table, offsets, markers, before, j, places, kept);
    step_coloured(
        table,
        offsets,
        markers,
        users,
        begun,
        e,
        state,
        seen,
        &places[..],
        &kept[..],
    )
}

// All steps of an unfolded run, from the table's start in the bytes; fine: their number.
fn play<'a>(
    table: &'a [u8],
    offsets: &'a [usize],
    markers: &'a [u32],
    users: &'a [u32],
    before: &'a [u32],
    begun: &'a [u8],
    lifted: &'a [u16],
    state: &mut [u8],
    seen: &mut [u8],
    places: &mut [u32],
    kept: &mut [u32],
) -> Result<usize, Refusal>
    requires { Underway table.now offsets.now markers.now users.now before.now begun.now lifted.now 0 state.old seen.old places.old kept.old }
    ensures { Replayed (net_of table.now) lifted.now result state.new seen.new }
{
    for k in 0..lifted.len() {
        if let Err(cause) = step_unfolded(
            table, offsets, markers, users, before, begun, lifted, k, state, seen, places, kept,
        ) {
            return Err(cause.at(k));
        }
    }
    Ok(lifted.len())
}

// An unfolded run replayed from the start into bytes that are all 0: the marking, and the events that have occurred.
pub fn replay_lifted<'a>(
    table: &'a [u8],
    events: usize,
    markers: &'a [u32],
    users: &'a [u32],
    before: &'a [u32],
    lifted: &'a [u16],
    state: &mut [u8],
    seen: &mut [u8],
) -> Result<usize, Refusal>
    requires replayable { Replayable table.now events markers.now users.now before.now lifted.now }
    requires state_value { (state.old ≡ replicate 256 0) × (seen.old ≡ replicate 256 0) }
    ensures { Replayed (net_of table.now) lifted.now result state.new seen.new }
{
    let mut offsets = [0usize; 256];
    played::fill(table, events, &mut offsets);
    let mut begun = [0u8; 256];
    played::start(table, events, &mut begun);
    played::start(table, events, state);
    let mut places = [0u32; 256];
    let mut kept = [0u32; 256];
    play(
        table,
        &offsets[0..events],
        markers,
        users,
        before,
        &begun,
        lifted,
        state,
        seen,
        &mut places,
        &mut kept,
    )
}

// The event behind each number of a run, over the first numbers of an output.
fn read_back<'a>(before: &'a [u32], events: usize, lifted: &'a [u16], out: &mut [u16])
    requires reading { Reading before.now events lifted.now }
    requires lifted_in_bounds { length lifted.now ≤ length out.old }
    ensures { Read before.now events lifted.now (length lifted.now) out.old out.new }
{
    for (k, number) in lifted.iter().enumerate() {
        out[k] = across::event_of(before, events, u32::from(*number)) as u16;
    }
}

// The same where the output has room for all of them; fine: how many.
fn write_back<'a>(
    before: &'a [u32],
    events: usize,
    lifted: &'a [u16],
    out: &mut [u16],
) -> Result<usize, Refusal>
    requires { Reading before.now events lifted.now }
    ensures answer { result ≡ fitting (length lifted.now) (length out.old) }
    ensures after { Read before.now events lifted.now (value_of result) out.old out.new }
{
    let steps = lifted.len();
    if out.len() < steps {
        return refusal::refused(16, steps);
    }
    read_back(before, events, lifted, out);
    Ok(steps)
}

// The projection of an unfolded run: replayed from the unfolded start, each number then replaced by its event of the table.
pub fn project<'a>(table: &'a [u8], lifted: &'a [u16], out: &mut [u16]) -> Result<usize, Refusal>
    ensures answer { result ≡ project_of table.now lifted.now (length out.old) }
    ensures after { out.new ≡ projected_of table.now lifted.now out.old }
{
    let mut markers = [0u32; 256];
    let mut users = [0u32; 256];
    let mut bases = [0u32; 257];
    let mut before = [0u32; 257];
    let events = across::lay_out_run(
        table,
        lifted.len(),
        &mut markers,
        &mut users,
        &mut bases,
        &mut before,
    )?;
    let mut state = [0u8; 256];
    let mut seen = [0u8; 256];
    replay_lifted(
        table, events, &markers, &users, &before, lifted, &mut state, &mut seen,
    )?;
    write_back(&before, events, lifted, out)
}
