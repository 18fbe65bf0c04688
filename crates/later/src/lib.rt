// What a later occurrence of an event picks: itself for a condition that it marks and that nobody else uses, and else the first marker.
#![tactic(auto)]

ghost use Rattle.std.specs.Prelude.{◌≡◌};
ghost use Rattle.words.specs.Words.{words};
ghost use Rattle.table.specs.Decoded.{net_of};
ghost use Rattle.repeats.specs.Repeats.{Used};
ghost use Rattle.firsts.specs.Firsts.{Inside};
ghost use Rattle.later.specs.Later.{Later};
ghost use Rattle.later.specs.Own.{only_at, own_all};

use firsts::Firsts;
use refusal::{Marker, TableEvent};

// Whether condition b is persistent and its only user is the event with these preconditions.
fn only_user<'a>(table: &'a [u8], users: &'a [u32], pre: &'a [u8], b: usize) -> bool
    ensures { result ≡ only_at table.now users.now (words pre.now) b }
{
    if tally::number(users, b) == 1 {
        if colours::is_persistent(table, b) {
            return words::has(pre, b);
        }
    }
    false
}

// Event e, which has these lists, is set as marker of each condition that it marks and uses alone.
fn own_all<'a>(
    firsts: Firsts,
    table: &'a [u8],
    users: &'a [u32],
    pre: &'a [u8],
    post: &'a [u8],
    e: u16,
) -> Firsts
    requires { Inside (words post.now) }
    ensures { result.slots ≡ own_all table.now users.now (words pre.now) e firsts.slots (words post.now) }
{
    let own = Some(Marker::ByEvent(TableEvent(e)));
    let mut next = firsts;
    for b in words::numbers(post) {
        let b = usize::from(b);
        if only_user(table, users, pre, b) {
            next.slots[b] = own;
        }
    }
    next
}

// For each condition of a table what a later occurrence of its users picks, by the first markers of a run, in one walk over the table.
pub fn own_markers<'a>(table: &'a [u8], events: usize, users: &'a [u32], firsts: Firsts) -> Firsts
    requires events_value { events ≡ (net_of table.now).events }
    requires used { Used table.now users.now }
    ensures { Later (net_of table.now) firsts.slots result.slots }
{
    let mut later = firsts;
    for event in table::events(table, events) {
        let pre = tally::list_at(table, event.at, false);
        let post = tally::list_at(table, event.at, true);
        later = own_all(later, table, users, pre, post, event.number as u16);
    }
    later
}
