// Which events of a table mark a persistent condition for others and so may occur only once in a run that is lifted, found once for
// all events.
#![tactic(auto)]

ghost use Rattle.std.specs.Prelude.{◌≡◌, length};
ghost use Rattle.lists.specs.Lists.{any};
ghost use Rattle.words.specs.Words.{words};
ghost use Rattle.table.specs.Decoded.{net_of};
ghost use Rattle.repeats.specs.Repeats.{Used, others_at, Once};

// Whether condition b is persistent and has a user besides the event with these preconditions.
fn used_by_others<'a>(table: &'a [u8], users: &'a [u32], pre: &'a [u8], b: usize) -> bool
    ensures { result ≡ others_at table.now users.now (words pre.now) b }
{
    if colours::is_persistent(table, b) {
        let count = tally::number(users, b);
        if count == 1 {
            if words::has(pre, b) {
                return false;
            }
            return true;
        }
        return 1 < count;
    }
    false
}

// Whether an event with these lists marks for others.
fn marks_for_others<'a>(table: &'a [u8], users: &'a [u32], pre: &'a [u8], post: &'a [u8]) -> bool
    ensures { result ≡ any (others_at table.now users.now (words pre.now)) (words post.now) }
{
    words::numbers(post).any(|b| used_by_others(table, users, pre, usize::from(b)))
}

// For each event of a table whether it marks for others, in one walk over the table.
pub fn once_only<'a>(table: &'a [u8], events: usize, users: &'a [u32], once: &mut [u8])
    requires events_value { events ≡ (net_of table.now).events }
    requires used { Used table.now users.now }
    requires once_len { length once.old ≡ 256 }
    ensures { Once (net_of table.now) once.new }
{
    for event in table::events(table, events) {
        let pre = tally::list_at(table, event.at, false);
        let post = tally::list_at(table, event.at, true);
        once[event.number] = marks_for_others(table, users, pre, post) as u8;
    }
}
