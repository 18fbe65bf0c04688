// What every call on the unfolding does first, so that all of them refuse alike: judge the table, count markers, users and colours, and
// refuse with 13 and 14.
#![tactic(auto)]

ghost use Rattle.std.specs.Prelude.{◌≡◌, ◌≤◌, length, Ok};
ghost use Rattle.words.specs.Words.{words};
ghost use Rattle.table.specs.Decoded.{net_of};
ghost use Rattle.table.specs.Walk.{judge_of};
ghost use Rattle.model.specs.Numbering.{width};
ghost use Rattle.records.specs.Records.{conditions};
ghost use Rattle.layout.specs.Counts.{width_at, idle_at, events_of};
ghost use Rattle.layout.specs.Laid.{Low, Sums, Counted, LaidOut};

use refusal::Refusal;

// Whether an event with these lists touches nothing once unfolded.
fn idle<'a>(table: &'a [u8], users: &[u32], pre: &'a [u8], post: &'a [u8]) -> bool
    ensures { result ≡ idle_at table.now users.now (words pre.now) (words post.now) }
{
    if 1 < pre.len() {
        return false;
    }
    words::numbers(post).all(|b| {
        let b = usize::from(b);
        colours::is_persistent(table, b) && tally::number(users, b) == 0
    })
}

// How many copies condition b has: markers times users, or 1 where it is ordinary.
pub fn width<'a>(table: &'a [u8], markers: &'a [u32], users: &'a [u32], b: usize) -> u32
    requires { Low markers.now × Low users.now }
    ensures { result ≡ width_at table.now markers.now users.now b }
{
    if colours::is_persistent(table, b) {
        tally::number(markers, b) * tally::number(users, b)
    } else {
        1
    }
}

// Before each condition, and after the last, how many copies stand before it.
fn sums<'a>(table: &'a [u8], markers: &'a [u32], users: &'a [u32], bases: &mut [u32])
    requires low { Low markers.now × Low users.now }
    requires table_bound { conditions table.now ≤ 256 }
    requires bases_len { length bases.old ≡ 257 }
    ensures { Sums (width_at table.now markers.now users.now) (conditions table.now) bases.new }
{
    let n = records::conditions(table) as usize;
    let mut total: u32 = 0;
    for b in 0..n {
        bases[b] = total;
        total = total + width(table, markers, users, b);
    }
    bases[n] = total;
}

// All events looked at: 13 at the lowest that touches nothing, else the sum of their numbers of colours.
fn events_judged<'a>(
    table: &'a [u8],
    events: usize,
    markers: &'a [u32],
    users: &'a [u32],
) -> Result<usize, Refusal>
    requires counted { Counted table.now markers.now users.now }
    requires events_value { events ≡ (net_of table.now).events }
    ensures { result ≡ events_of (net_of table.now) }
{
    let mut total: usize = 0;
    for event in table::events(table, events) {
        let pre = tally::list_at(table, event.at, false);
        if idle(table, users, pre, tally::list_at(table, event.at, true)) {
            return refusal::refused(13, event.number);
        }
        total = total + colours::colours(table, markers, pre) as usize;
    }
    Ok(total)
}

// A counted table held against 13 and 14; fine: the number of its events.
fn within_limits<'a>(
    table: &'a [u8],
    events: usize,
    markers: &'a [u32],
    users: &'a [u32],
    bases: &'a [u32],
) -> Result<usize, Refusal>
    requires table_value { judge_of table.now ≡ Ok events }
    requires counted { Counted table.now markers.now users.now }
    requires sums { Sums (width (net_of table.now)) (net_of table.now).conditions bases.now }
    ensures { LaidOut table.now result markers.now users.now bases.now }
{
    let total = events_judged(table, events, markers, users)?;
    if refusal::MOST_UNFOLDED < tally::number(bases, records::conditions(table) as usize) {
        return refusal::refused(14, 0);
    }
    if (refusal::MOST_UNFOLDED as usize) < total {
        return refusal::refused(14, 0);
    }
    Ok(events)
}

// A table laid out for its unfolding: judged, its numbers written where they are lent, then 13 and 14; fine: the number of its events.
pub fn lay_out(
    table: &[u8],
    markers: &mut [u32],
    users: &mut [u32],
    bases: &mut [u32],
) -> Result<usize, Refusal>
    requires { (length markers.old ≡ 256) × (length users.old ≡ 256) × (length bases.old ≡ 257) }
    ensures { LaidOut table.now result markers.new users.new bases.new }
{
    let events = table::judge(table)?;
    tally::tally(table, events, true, 1, markers);
    tally::tally(table, events, false, 0, users);
    sums(table, &markers[..], &users[..], bases);
    within_limits(table, events, &markers[..], &users[..], &bases[..])
}
