// The firing of an unfolded event on a lent unfolded marking: its lists are walked as ranges, and none of their numbers is kept.
#![tactic(auto)]

ghost use Rattle.std.specs.Prelude.{◌≡◌, [], ◌+◌, length};
ghost use Rattle.lists.specs.Lists.{sum};
ghost use Rattle.model.specs.Net.{fire, stopping};
ghost use Rattle.model.specs.Unfolding.{basic};
ghost use Rattle.model.specs.Numbering.{size};
ghost use Rattle.model.specs.Lent.{bytes, marking};
ghost use Rattle.table.specs.Decoded.{net_of};
ghost use Rattle.segments.specs.Ranges.{ranged, Owned};
ghost use Rattle.step.specs.Lent.{Lent};
ghost use Rattle.step.specs.Steps.{set_all, stepped};
ghost use Rattle.stopping.specs.Unfolded.{step_of};
ghost use Rattle.walking.specs.Steps.{stops, Summed, Below};
ghost use Rattle.firing.specs.Calls.{unfolded_fire_of, unfolded_fired_of};
ghost use Rattle.firing.specs.Steps.{Lending};

use refusal::{Refusal, UnfoldedCondition, UnfoldedEvent};
use stopping::Cause;
use unfolding::Coloured;

// A step over the ranges of what is taken and of what is put: tested, then what is taken cleared and what is put set.
fn step_over<'a>(
    table: &'a [u8],
    bases: &'a [u32],
    starts: &'a [u32],
    sizes: &'a [u32],
    taken: usize,
    firsts: &'a [u32],
    widths: &'a [u32],
    put: usize,
    state: &mut [u8],
) -> Result<(), Cause<UnfoldedCondition>>
    requires summed { Summed table.now bases.now }
    requires state_len { length state.old ≡ (basic (net_of table.now)).conditions }
    requires below { Below starts.now sizes.now taken (length state.old) }
    requires below_2 { Below firsts.now widths.now put (length state.old) }
    ensures answer { result ≡ step_of (stops (marking state.old) (ranged starts.now sizes.now taken) (ranged firsts.now widths.now put) (basic (net_of table.now)).old) }
    ensures after { state.new ≡ stepped (stops (marking state.old) (ranged starts.now sizes.now taken) (ranged firsts.now widths.now put) (basic (net_of table.now)).old) (set_all [] 1 (ranged firsts.now widths.now put) (set_all [] 0 (ranged starts.now sizes.now taken) state.old)) state.old }
{
    walking::test(
        table,
        bases,
        &state[..],
        starts,
        sizes,
        taken,
        firsts,
        widths,
        put,
    )?;
    walking::set_ranges(starts, sizes, taken, 0, state);
    walking::set_ranges(firsts, widths, put, 1, state);
    Ok(())
}

// One step of the unfolded net: the lists of the unfolded event that a number names, and then the step over them.
fn step_at<'a>(
    table: &'a [u8],
    markers: &'a [u32],
    users: &'a [u32],
    bases: &'a [u32],
    own: Coloured,
    state: &mut [u8],
) -> Result<(), Cause<UnfoldedCondition>>
    requires owned { Owned table.now markers.now users.now bases.now own.event own.at own.weight own.rest }
    requires state_len { (length state.old ≡ (basic (net_of table.now)).conditions) × Lent state.old }
    ensures answer { result ≡ step_of (stopping (basic (net_of table.now)) (marking state.old) (sum (size (net_of table.now)) own.event + own.rest)) }
    ensures after { state.new ≡ stepped (stopping (basic (net_of table.now)) (marking state.old) (sum (size (net_of table.now)) own.event + own.rest)) (bytes (basic (net_of table.now)).conditions (fire (basic (net_of table.now)) (marking state.old) (sum (size (net_of table.now)) own.event + own.rest))) state.old }
{
    let mut starts = [0u32; 512];
    let mut sizes = [0u32; 512];
    let taken = segments::ranges(
        table,
        markers,
        users,
        bases,
        own,
        false,
        &mut starts,
        &mut sizes,
    );
    let mut firsts = [0u32; 512];
    let mut widths = [0u32; 512];
    let put = segments::ranges(
        table,
        markers,
        users,
        bases,
        own,
        true,
        &mut firsts,
        &mut widths,
    );
    step_over(
        table, bases, &starts, &sizes, taken, &firsts, &widths, put, state,
    )
}

// A table laid out and a lent unfolded marking of it judged; fine: the number of the table's events.
fn lend<'a>(
    table: &'a [u8],
    state: &'a [u8],
    markers: &mut [u32],
    users: &mut [u32],
    bases: &mut [u32],
) -> Result<usize, Refusal>
    requires { (length markers.old ≡ 256) × (length users.old ≡ 256) × (length bases.old ≡ 257) }
    ensures { Lending table.now state.now result markers.new users.new bases.new }
{
    let events = layout::lay_out(table, markers, users, bases)?;
    let count = tally::number(&bases[..], records::conditions(table) as usize) as usize;
    if state.len() != count {
        return refusal::refused(18, count);
    }
    let above = game::first_above(state);
    if above < state.len() {
        return refusal::refused(18, above);
    }
    Ok(events)
}

// An unfolded event fired at a lent unfolded marking, over which the new one is written.
pub fn unfolded_fire(table: &[u8], marking: &mut [u8], j: UnfoldedEvent) -> Result<usize, Refusal>
    ensures answer { result ≡ unfolded_fire_of table.now marking.old j.0 }
    ensures after { marking.new ≡ unfolded_fired_of table.now marking.old j.0 }
{
    let mut markers = [0u32; 256];
    let mut users = [0u32; 256];
    let mut bases = [0u32; 257];
    let events = lend(table, &marking[..], &mut markers, &mut users, &mut bases)?;
    let wanted = j.0 as u32;
    let Some(own) = unfolding::owner(table, events, &markers, wanted) else {
        return refusal::refused(10, 0);
    };
    let count = marking.len();
    step_at(table, &markers, &users, &bases, own, marking)?;
    Ok(count)
}
