// The events of a table that have a condition in one of their two lists, how many, which, and at which place: markers and users are
// counted and found by one walk.
#![tactic(auto)]

ghost use Rattle.std.specs.Prelude.{◌≡◌, ◌≤◌, eqb, length, get_or};
ghost use Rattle.lists.specs.Lists.{index};
ghost use Rattle.words.specs.Words.{words};
ghost use Rattle.table.specs.Decoded.{net_of};
ghost use Rattle.tally.specs.Having.{list_part, having, raised, Room, Listed, Members, Tally};

// One of the two lists of the Event record at an offset: the postconditions, or the preconditions.
pub fn list_at(table: &[u8], at: usize, post: bool) -> &[u8]
    ensures { result.now ≡ list_part post table.now at }
{
    if post {
        records::post_at(table, at)
    } else {
        records::pre_at(table, at)
    }
}

// The number that stands for b; 0 past the last.
pub fn number(counts: &[u32], b: usize) -> u32
    ensures { result ≡ get_or counts.now b 0 }
{
    if b < counts.len() { counts[b] } else { 0 }
}

// One more for each condition of a list.
pub fn raise(counts: &mut [u32], list: &[u8])
    requires { Room counts.old list.now }
    ensures { counts.new ≡ raised counts.old (words list.now) }
{
    for b in words::numbers(list) {
        let b = usize::from(b);
        counts[b] = counts[b] + 1;
    }
}

// 1 for each condition of a list, 0 for every other.
pub fn members(list: &[u8]) -> [u32; 256]
    requires { Listed list.now }
    ensures { Members (words list.now) result }
{
    let mut counts = [0u32; 256];
    raise(&mut counts, list);
    counts
}

// For each condition, from a first number on, how many of the first events have it in a list.
pub fn tally(table: &[u8], upto: usize, post: bool, first: u32, counts: &mut [u32])
    requires upto_bound { upto ≤ (net_of table.now).events }
    requires first_bound { first ≤ 1 }
    requires counts_len { length counts.old ≡ 256 }
    ensures { Tally (net_of table.now) post first upto counts.new }
{
    counts.fill(first);
    for event in table::events(table, upto) {
        raise(counts, list_at(table, event.at, post));
    }
}

// The event at a place among those of the first events that have b in a list; 0 where there are not so many.
pub fn nth(table: &[u8], upto: usize, post: bool, b: usize, wanted: usize) -> usize
    requires { upto ≤ (net_of table.now).events }
    ensures { result ≡ get_or (having (net_of table.now) post b upto) wanted 0 }
{
    let mut left = wanted;
    for event in table::events(table, upto) {
        if words::has(list_at(table, event.at, post), b) {
            if left == 0 {
                return event.number;
            }
            left = left - 1;
        }
    }
    0
}

// The place of event e among those of the first events that have b in a list; their number where it is none of them.
pub fn place(table: &[u8], upto: usize, post: bool, b: usize, e: usize) -> usize
    requires { upto ≤ (net_of table.now).events }
    ensures { result ≡ index (eqb e) (having (net_of table.now) post b upto) }
{
    let mut found: usize = 0;
    for event in table::events(table, upto) {
        if words::has(list_at(table, event.at, post), b) {
            if e == event.number {
                return found;
            }
            found = found + 1;
        }
    }
    found
}
