// Whether an unfolded event can fire, decided from the table's marking and the events that have occurred, so that no unfolded marking is
// kept; `decide` stands at the end.
#![tactic(auto)]

ghost use Rattle.std.specs.Prelude.{◌≡◌, ◌≤◌, length, set};
ghost use Rattle.lists.specs.Lists.{failing};
ghost use Rattle.words.specs.Words.{words};
ghost use Rattle.model.specs.Lent.{marking};
ghost use Rattle.table.specs.Decoded.{net_of};
ghost use Rattle.tally.specs.Having.{Listed, Members};
ghost use Rattle.colours.specs.Colours.{ending};
ghost use Rattle.step.specs.Steps.{failing_of};
ghost use Rattle.stopping.specs.Table.{step_of};
ghost use Rattle.decided.specs.Decided.{stopped_by};
ghost use Rattle.decided.specs.Kept.{marker_at, Kept, Keeping, Choosing, Chosen, marked_at, ready_at, back_at, excused, clear_at, Deciding};

use refusal::TableCondition;
use stopping::Cause;

// The marker at a place among those of condition b, kept with its event; where it was the last one asked for, no event is looked for.
fn keep(table: &[u8], events: usize, b: usize, place: u32, places: &mut [u32], kept: &mut [u32])
    requires { Keeping table.now events b place places.old kept.old }
    ensures held { Kept (net_of table.now) places.new kept.new }
    ensures placed { places.new ≡ set places.old b place }
{
    let last = places[b];
    places[b] = place;
    if last == place {
        return;
    }
    if place == 0 {
        return;
    }
    kept[b] = tally::nth(table, events, true, b, (place - 1) as usize) as u32;
}

// The colour with a number laid out by condition: a recursion down the persistent preconditions, of which an event has at most sixteen.
fn choose_down<'a>(
    table: &&'a [u8],
    events: usize,
    markers: &&'a [u32],
    pre: &&'a [u8],
    left: usize,
    weight: u32,
    rest: u32,
    places: &mut [u32],
    kept: &mut [u32],
)
    requires left_in_bounds { left ≤ length pre.now.now }
    requires choosing { Choosing table.now.now markers.now.now events (words (ending left pre.now.now)) weight rest places.old kept.old }
    ensures { Chosen table.now.now (words (ending left pre.now.now)) rest places.old places.new kept.new }
{
    let bytes = *table;
    let list = *pre;
    let later = &list[list.len() - left..];
    let i = colours::first_persistent(records::flags(bytes), later);
    if left - i < 2 {
        return;
    }
    let b = words::word_within(later, i) as usize;
    let numbers = *markers;
    let below = weight / tally::number(numbers, b);
    keep(bytes, events, b, rest / below, places, kept);
    choose_down(
        table,
        events,
        markers,
        pre,
        left - i - 2,
        below,
        rest % below,
        places,
        kept,
    );
}

// The colour with a number among those that a list of preconditions leaves, laid out by condition.
pub fn choose<'a>(
    table: &'a [u8],
    events: usize,
    markers: &'a [u32],
    pre: &'a [u8],
    weight: u32,
    rest: u32,
    places: &mut [u32],
    kept: &mut [u32],
)
    requires { Choosing table.now markers.now events (words pre.now) weight rest places.old kept.old }
    ensures { Chosen table.now (words pre.now) rest places.old places.new kept.new }
{
    let left = pre.len();
    choose_down(
        &table, events, &markers, &pre, left, weight, rest, places, kept,
    );
}

// Whether the kept marker of condition b has marked it: the start, or an event that has occurred.
fn has_marked<'a>(
    begun: &'a [u8],
    seen: &'a [u8],
    places: &'a [u32],
    kept: &'a [u32],
    b: usize,
) -> bool
    ensures { result ≡ marked_at begun.now seen.now places.now kept.now b }
{
    if tally::number(places, b) == 0 {
        return words::byte(begun, b) == 1;
    }
    words::byte(seen, tally::number(kept, b) as usize) == 1
}

// Whether a precondition stops no step.
fn is_ready<'a>(
    table: &'a [u8],
    state: &'a [u8],
    begun: &'a [u8],
    seen: &'a [u8],
    places: &'a [u32],
    kept: &'a [u32],
    b: usize,
) -> bool
    ensures { result ≡ ready_at table.now state.now begun.now seen.now places.now kept.now b }
{
    if colours::is_persistent(table, b) {
        return has_marked(begun, seen, places, kept, b);
    }
    words::byte(state, b) == 1
}

// The first precondition that stops a step: an ordinary one that does not hold, or a persistent one whose kept marker has not marked it.
fn first_lacking<'a>(
    table: &'a [u8],
    pre: &'a [u8],
    state: &'a [u8],
    begun: &'a [u8],
    seen: &'a [u8],
    places: &'a [u32],
    kept: &'a [u32],
) -> Option<TableCondition>
    ensures { result ≡ failing_of (failing (ready_at table.now state.now begun.now seen.now places.now kept.now) (words pre.now)) }
{
    words::numbers(pre)
        .find(|b| !is_ready(table, state, begun, seen, places, kept, usize::from(*b)))
        .map(TableCondition)
}

// Whether event e gives back every copy of condition b that it marks: there is no user, or e alone, whose kept marker is e.
fn gives_back<'a>(
    users: &'a [u32],
    pre: &'a [u8],
    e: usize,
    places: &'a [u32],
    kept: &'a [u32],
    b: usize,
) -> bool
    ensures { result ≡ back_at users.now (words pre.now) e places.now kept.now b }
{
    let count = tally::number(users, b);
    if count == 0 {
        return true;
    }
    if count == 1 {
        if words::has(pre, b) {
            if tally::number(places, b) == 0 {
                return false;
            }
            return e == tally::number(kept, b) as usize;
        }
    }
    false
}

// Whether a postcondition of event e stops no step, where e has occurred before or not, and the preconditions that excuse are marked.
fn is_clear<'a>(
    table: &'a [u8],
    users: &'a [u32],
    pre: &'a [u8],
    taken: &'a [u32],
    e: usize,
    again: bool,
    state: &'a [u8],
    places: &'a [u32],
    kept: &'a [u32],
    b: usize,
) -> bool
    requires { Members (excused table.now (words pre.now)) taken.now }
    ensures { result ≡ clear_at table.now users.now (words pre.now) e again state.now places.now kept.now b }
{
    if colours::is_persistent(table, b) {
        if again {
            return gives_back(users, pre, e, places, kept, b);
        }
        return true;
    }
    if words::byte(state, b) == 1 {
        return tally::number(taken, b) == 1;
    }
    true
}

// The first postcondition of event e that stops a step, where the preconditions that excuse are marked.
fn first_meeting<'a>(
    table: &'a [u8],
    users: &'a [u32],
    pre: &'a [u8],
    taken: &'a [u32],
    post: &'a [u8],
    e: usize,
    again: bool,
    state: &'a [u8],
    places: &'a [u32],
    kept: &'a [u32],
) -> Option<TableCondition>
    requires { Members (excused table.now (words pre.now)) taken.now }
    ensures { result ≡ failing_of (failing (clear_at table.now users.now (words pre.now) e again state.now places.now kept.now) (words post.now)) }
{
    words::numbers(post)
        .find(|b| !is_clear(
            table,
            users,
            pre,
            taken,
            e,
            again,
            state,
            places,
            kept,
            usize::from(*b),
        ))
        .map(TableCondition)
}

// The preconditions that excuse from contact: all, or none where the table has the old rule.
fn excusing<'a>(table: &'a [u8], pre: &'a [u8]) -> &'a [u8]
    requires { Listed pre.now }
    ensures read { words result.now ≡ excused table.now (words pre.now) }
    ensures listed { Listed result.now }
{
    if records::old_rule(table) {
        return &pre[..0];
    }
    pre
}

// The first postcondition of event e that stops a step: the preconditions that excuse are marked once, so that none is looked up in their
// list.
fn first_contact<'a>(
    table: &'a [u8],
    users: &'a [u32],
    pre: &'a [u8],
    post: &'a [u8],
    e: usize,
    again: bool,
    state: &'a [u8],
    places: &'a [u32],
    kept: &'a [u32],
) -> Option<TableCondition>
    requires { Listed pre.now }
    ensures { result ≡ failing_of (failing (clear_at table.now users.now (words pre.now) e again state.now places.now kept.now) (words post.now)) }
{
    let taken = tally::members(excusing(table, pre));
    first_meeting(
        table, users, pre, &taken, post, e, again, state, places, kept,
    )
}

// What stops the step of event e, whose record stands at an offset, with the markers that are kept for its persistent preconditions.
pub fn decide<'a>(
    table: &'a [u8],
    at: usize,
    e: usize,
    users: &'a [u32],
    state: &'a [u8],
    begun: &'a [u8],
    seen: &'a [u8],
    places: &'a [u32],
    kept: &'a [u32],
) -> Result<(), Cause<TableCondition>>
    requires { Deciding table.now users.now at e begun.now places.now kept.now }
    ensures { result ≡ step_of (stopped_by (net_of table.now) (marking state.now) (marking seen.now) (marker_at (net_of table.now) places.now) e) }
{
    let pre = records::pre_at(table, at);
    let lacking = first_lacking(table, pre, state, begun, seen, places, kept);
    if let Some(b) = lacking {
        return Err(Cause::Lacks(b));
    }
    let again = words::byte(seen, e) == 1;
    let contact = first_contact(
        table,
        users,
        pre,
        records::post_at(table, at),
        e,
        again,
        state,
        places,
        kept,
    );
    if let Some(b) = contact {
        return Err(Cause::Meets(b));
    }
    Ok(())
}
