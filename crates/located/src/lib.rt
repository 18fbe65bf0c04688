// What stops a step, turned from a condition of the table into the unfolded condition that it stands for; `locate` stands at the end.
#![tactic(auto)]

ghost use Rattle.std.specs.Prelude.{◌≡◌, false, ◌+◌, ◌*◌, ◌≤◌, ◌<◌, T, eqb, Err};
ghost use Rattle.std.proofs.Math.Option.{some};
ghost use Rattle.lists.specs.Lists.{mem, index, sum};
ghost use Rattle.model.specs.Unfolding.{users};
ghost use Rattle.model.specs.Numbering.{condition_number, condition_count, width};
ghost use Rattle.model.specs.Across.{most_unfolded};
ghost use Rattle.table.specs.Decoded.{net_of};
ghost use Rattle.layout.specs.Laid.{Counted};
ghost use Rattle.tally.specs.Having.{having};
ghost use Rattle.stopping.specs.Unfolded.{step_of};
ghost use Rattle.decided.specs.Decided.{lacked_condition, met_condition, unfolded_stop};
ghost use Rattle.decided.specs.Kept.{marker_at};
ghost use Rattle.located.specs.Located.{said_by, stop_of, passed_at, Locating, Left, Named, Told};

use refusal::{Marker, TableCondition, TableEvent, UnfoldedCondition};
use stopping::Cause;

// The number of condition b's first copy: how many copies the conditions before it have.
fn base<'a>(table: &'a [u8], markers: &'a [u32], users: &'a [u32], b: usize) -> u32
    requires counted { Counted table.now markers.now users.now }
    requires table_bound { condition_count (net_of table.now) ≤ most_unfolded }
    requires b_bound { b < (net_of table.now).conditions }
    ensures { result ≡ sum (width (net_of table.now)) b }
{
    let mut total: u32 = 0;
    for i in 0..b {
        total += layout::width(table, markers, users, i);
    }
    total
}

// The number of the unfolded condition that event e takes for its precondition b, with the markers that are kept for it.
fn lacked<'a>(
    table: &'a [u8],
    events: usize,
    markers: &'a [u32],
    users: &'a [u32],
    e: usize,
    places: &'a [u32],
    kept: &'a [u32],
    b: usize,
) -> usize
    requires locating { Locating table.now markers.now users.now events e places.now kept.now }
    requires t { T (mem b ((net_of table.now).preconditions e)) }
    ensures { result ≡ condition_number (net_of table.now) (lacked_condition (net_of table.now) (marker_at (net_of table.now) places.now) e b) }
{
    let first = base(table, markers, users, b) as usize;
    if colours::is_persistent(table, b) {
        let reader = tally::place(table, events, false, b, e);
        let marker = tally::number(places, b) as usize;
        return first + (marker * tally::number(users, b) as usize + reader);
    }
    first
}

// How many users of condition b come before the first whose copy, marked by event e, is not given back: one, where the first is e with
// e as its kept marker.
fn passed<'a>(
    table: &'a [u8],
    events: usize,
    e: usize,
    places: &'a [u32],
    kept: &'a [u32],
    b: usize,
) -> usize
    requires { events ≤ (net_of table.now).events }
    ensures { result ≡ passed_at e places.now kept.now b (index (eqb e) (having (net_of table.now) false b events)) }
{
    if tally::number(places, b) == 0 {
        return 0;
    }
    if e == tally::number(kept, b) as usize {
        if tally::place(table, events, false, b, e) == 0 {
            return 1;
        }
    }
    0
}

// The number of the lowest unfolded condition that event e puts for its postcondition b and does not take, with the markers that are
// kept for its preconditions.
fn met<'a>(
    table: &'a [u8],
    events: usize,
    markers: &'a [u32],
    users: &'a [u32],
    e: usize,
    places: &'a [u32],
    kept: &'a [u32],
    b: usize,
) -> usize
    requires locating { Locating table.now markers.now users.now events e places.now kept.now }
    requires t { T (mem b ((net_of table.now).postconditions e)) × Left (net_of table.now) (marker_at (net_of table.now) places.now) e b }
    ensures { result ≡ condition_number (net_of table.now) (met_condition (net_of table.now) (marker_at (net_of table.now) places.now) e b) }
{
    let first = base(table, markers, users, b) as usize;
    if colours::is_persistent(table, b) {
        let own = Marker::ByEvent(TableEvent(e as u16));
        let marker = unfolding::marker_place(table, events, b, own);
        let before = passed(table, events, e, places, kept, b);
        return first + (marker * tally::number(users, b) as usize + before);
    }
    first
}

// A cause with the unfolded condition in place of the table's.
fn relocated<'a>(
    table: &'a [u8],
    events: usize,
    markers: &'a [u32],
    users: &'a [u32],
    e: usize,
    places: &'a [u32],
    kept: &'a [u32],
    cause: Cause<TableCondition>,
) -> Cause<UnfoldedCondition>
    requires locating { Locating table.now markers.now users.now events e places.now kept.now }
    requires named { Named (net_of table.now) (marker_at (net_of table.now) places.now) e cause }
    ensures { Err result ≡ step_of (unfolded_stop (net_of table.now) (marker_at (net_of table.now) places.now) e (some (said_by cause))) }
{
    match cause {
        Cause::Unknown => Cause::Unknown,
        Cause::Lacks(b) => {
            let k = lacked(table, events, markers, users, e, places, kept, b.0 as usize);
            Cause::Lacks(UnfoldedCondition(k as u16))
        }
        Cause::Meets(b) => {
            let k = met(table, events, markers, users, e, places, kept, b.0 as usize);
            Cause::Meets(UnfoldedCondition(k as u16))
        }
    }
}

// A step's answer with the unfolded condition in place of the table's, where it tells what stops an unfolded event of event e with the
// markers that are kept for its preconditions.
pub fn locate<'a>(
    table: &'a [u8],
    events: usize,
    markers: &'a [u32],
    users: &'a [u32],
    e: usize,
    places: &'a [u32],
    kept: &'a [u32],
    step: Result<(), Cause<TableCondition>>,
) -> Result<(), Cause<UnfoldedCondition>>
    requires locating { Locating table.now markers.now users.now events e places.now kept.now }
    requires told { Told (net_of table.now) (marker_at (net_of table.now) places.now) e step }
    ensures { result ≡ step_of (unfolded_stop (net_of table.now) (marker_at (net_of table.now) places.now) e (stop_of step)) }
{
    match step {
        Ok(()) => Ok(()),
        Err(cause) => Err(relocated(table, events, markers, users, e, places, kept, cause)),
    }
}
