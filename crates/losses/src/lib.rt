// Which events of a table may lose a run in the unfolded net when they come again; the call stands at the end.
#![tactic(auto)]

ghost use Rattle.std.specs.Prelude.{◌≡◌, ◌&&◌, ◌++◌, ◌≤◌, eqb, length, drop};
ghost use Rattle.lists.specs.Lists.{all, any};
ghost use Rattle.model.specs.Lent.{bytes};
ghost use Rattle.words.specs.Words.{words};
ghost use Rattle.table.specs.Decoded.{net_of};
ghost use Rattle.losses.specs.Losses.{lossy};
ghost use Rattle.losses.specs.Calls.{lossy_of, lossy_into};
ghost use Rattle.losses.specs.Tests.{kept_at, steady_at, spent_at, recurs_at, Known};

use refusal::Refusal;

// Whether condition b is persistent or stands in a list.
fn is_kept<'a>(table: &'a [u8], list: &'a [u8], b: usize) -> bool
    ensures { result ≡ kept_at table.now (words list.now) b }
{
    if colours::is_persistent(table, b) {
        return true;
    }
    words::has(list, b)
}

// Whether every ordinary condition of a list stands in another.
fn ordinary_in<'a>(table: &'a [u8], list: &'a [u8], other: &'a [u8]) -> bool
    ensures { result ≡ all (kept_at table.now (words other.now)) (words list.now) }
{
    words::numbers(list).all(|b| is_kept(table, other, usize::from(b)))
}

// Whether an event with these lists takes the ordinary conditions that it puts, and no others.
fn is_steady<'a>(table: &'a [u8], pre: &'a [u8], post: &'a [u8]) -> bool
    ensures { result ≡ steady_at table.now (words pre.now) (words post.now) }
{
    if ordinary_in(table, pre, post) {
        return ordinary_in(table, post, pre);
    }
    false
}

// Whether condition b is ordinary and put by no event, by how many events put each.
fn is_spent<'a>(table: &'a [u8], puts: &'a [u32], b: usize) -> bool
    ensures { result ≡ spent_at table.now puts.now b }
{
    if colours::is_persistent(table, b) {
        return false;
    }
    tally::number(puts, b) == 0
}

// Whether an event with these preconditions takes such a condition, so that it cannot come a second time.
fn spends<'a>(table: &'a [u8], puts: &'a [u32], pre: &'a [u8]) -> bool
    ensures { result ≡ any (spent_at table.now puts.now) (words pre.now) }
{
    words::numbers(pre).any(|b| is_spent(table, puts, usize::from(b)))
}

// Whether an event with these lists may come again and change what holds.
fn recurs<'a>(table: &'a [u8], puts: &'a [u32], pre: &'a [u8], post: &'a [u8]) -> bool
    ensures { result ≡ recurs_at table.now puts.now (words pre.now) (words post.now) }
{
    if is_steady(table, pre, post) {
        return false;
    }
    if spends(table, puts, pre) {
        return false;
    }
    true
}

// Whether an event with these lists is lossy, by its byte that tells whether it marks for others.
fn is_lossy<'a>(table: &'a [u8], once: u8, puts: &'a [u32], pre: &'a [u8], post: &'a [u8]) -> bool
    ensures { result ≡ (eqb once 1 && recurs_at table.now puts.now (words pre.now) (words post.now)) }
{
    if once == 1 {
        return recurs(table, puts, pre, post);
    }
    false
}

// A byte for each event to the front of a lent output, in one walk over the table.
fn write_lossy<'a>(table: &'a [u8], events: usize, once: &'a [u8], puts: &'a [u32], out: &mut [u8])
    requires known { Known table.now events once.now puts.now }
    requires events_in_bounds { events ≤ length out.old }
    ensures { out.new ≡ bytes events (lossy (net_of table.now)) ++ drop events out.old }
{
    for event in table::events(table, events) {
        let pre = tally::list_at(table, event.at, false);
        let post = tally::list_at(table, event.at, true);
        out[event.number] = is_lossy(table, once[event.number], puts, pre, post) as u8;
    }
}

// The lossy events of a table, one byte for each event; fine: how many events.
pub fn lossy(table: &[u8], out: &mut [u8]) -> Result<usize, Refusal>
    ensures answer { result ≡ lossy_of table.now (length out.old) }
    ensures after { out.new ≡ lossy_into table.now out.old }
{
    let events = table::judge(table)?;
    if out.len() < events {
        return refusal::refused(16, events);
    }
    let mut counts = [0u32; 256];
    tally::tally(table, events, false, 0, &mut counts);
    let mut once = [0u8; 256];
    repeats::once_only(table, events, &counts, &mut once);
    tally::tally(table, events, true, 0, &mut counts);
    write_lossy(table, events, &once, &counts, out);
    Ok(events)
}
