// A run of a table looked at as a whole: what first marked each persistent condition, which events occurred, and the first repeat.
#![tactic(auto)]

ghost use Rattle.std.specs.Prelude.{◌≡◌, ◌<◌, replicate};
ghost use Rattle.words.specs.Words.{words};
ghost use Rattle.table.specs.Decoded.{net_of};
ghost use Rattle.repeats.specs.Repeats.{Once};
ghost use Rattle.firsts.specs.Firsts.{Inside, mark_one, mark_all};
ghost use Rattle.firsts.specs.Walks.{Walkable, Walks};

use refusal::{Marker, TableEvent};

// What first marked each condition, by its number, if anything did.
#[derive(Clone, Copy)]
pub struct Firsts {
    pub slots: [Option<Marker>; 256],
}

// What a walk along a run tells: the step at which an event that marks for others first came again, if any did, and the first markers.
#[derive(Clone, Copy)]
pub struct Walked {
    pub repeat: Option<usize>,
    pub firsts: Firsts,
}

// One condition is marked, unless it is ordinary or has its first marker already.
#[tactic(auto, unfolding(crate::specs::Firsts::mark_one))]
fn mark_one(firsts: Firsts, table: &[u8], b: usize, m: Marker) -> Firsts
    requires { b < 256 }
    ensures { result.slots ≡ mark_one table.now firsts.slots m b }
{
    let mut next = firsts;
    if colours::is_persistent(table, b) {
        next.slots[b] = next.slots[b].or(Some(m));
    }
    next
}

// Each condition of a list is marked, likewise.
fn marked<'a>(firsts: Firsts, table: &'a [u8], list: &'a [u8], m: Marker) -> Firsts
    requires { Inside (words list.now) }
    ensures { result.slots ≡ mark_all table.now firsts.slots m (words list.now) }
{
    let mut next = firsts;
    for b in words::numbers(list) {
        next = mark_one(next, table, usize::from(b), m);
    }
    next
}

// A run of a judged table, walked once: an event marks when it first occurs; a later occurrence marks nothing new, and is a repeat if
// the event marks for others.
pub fn walk<'a>(
    table: &'a [u8],
    events: usize,
    offsets: &'a [usize],
    once: &'a [u8],
    run: &'a [u16],
    seen: &mut [u8],
) -> Walked
    requires walkable { Walkable table.now events offsets.now run.now }
    requires once { Once (net_of table.now) once.now }
    requires seen_value { seen.old ≡ replicate 256 0 }
    ensures { Walks (net_of table.now) run.now result seen.new }
{
    let start = records::marking_at(table, table::offset(table, events as u16));
    let none = Firsts { slots: [None; 256] };
    let mut firsts = marked(none, table, start, Marker::Start);
    let mut repeat = None;
    for (k, event) in run.iter().enumerate() {
        let e = *event as usize;
        if seen[e] == 1 {
            if once[e] == 1 {
                repeat = repeat.or(Some(k));
            }
        } else {
            seen[e] = 1;
            let post = tally::list_at(table, offsets[e], true);
            firsts = marked(firsts, table, post, Marker::ByEvent(TableEvent(*event)));
        }
    }
    Walked { repeat, firsts }
}
