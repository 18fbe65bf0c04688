// The lists of one unfolded event as ranges of numbers, at most two for each condition of the table, so that no list is kept number by
// number.
#![tactic(auto)]

ghost use Rattle.std.specs.Prelude.{◌≡◌, ◌++◌, ◌+◌, ◌*◌, ◌≤◌, ◌<◌, length, get_or};
ghost use Rattle.lists.specs.Lists.{count, sum, spread};
ghost use Rattle.words.specs.Words.{words};
ghost use Rattle.records.specs.Records.{conditions};
ghost use Rattle.model.specs.Numbering.{size};
ghost use Rattle.table.specs.Decoded.{net_of};
ghost use Rattle.tally.specs.Having.{one_at};
ghost use Rattle.segments.specs.Ranges.{ranged, within, alone_of, joined_of, choices_at, chosen_from, Choosing, event_at, added, size_if, Known, Owned, Ranges};

use unfolding::Coloured;

// The numbers that one condition of the table adds to a list: one range, then another.
#[derive(Clone, Copy)]
pub struct Segment {
    pub first: u32,
    pub size: u32,
    pub next: u32,
    pub more: u32,
}

// How many choices condition b leaves to a colour: its markers, or one where it is ordinary.
fn choices<'a>(table: &'a [u8], markers: &'a [u32], b: usize) -> u32
    ensures { result ≡ choices_at table.now markers.now b }
{
    if colours::is_persistent(table, b) {
        tally::number(markers, b)
    } else {
        1
    }
}

// The places of the chosen markers from a colour's number: a walk down the preconditions, the first of which changes slowest.
pub fn choose<'a>(
    table: &'a [u8],
    markers: &'a [u32],
    pre: &'a [u8],
    weight: u32,
    rest: u32,
    chosen: &mut [u32],
)
    requires choosing { Choosing table.now markers.now (words pre.now) weight rest }
    requires chosen_len { length chosen.old ≡ 256 }
    ensures { chosen.new ≡ chosen_from table.now (words pre.now) rest chosen.old }
{
    let mut above = weight;
    let mut left = rest;
    for b in words::numbers(pre) {
        let b = usize::from(b);
        above = above / choices(table, markers, b);
        chosen[b] = left / above;
        left = left % above;
    }
}

// One range alone.
pub fn alone(first: u32, size: u32) -> Segment
    requires { first + size ≤ 100000 }
    ensures { result ≡ alone_of first size }
{
    Segment {
        first,
        size,
        next: first + size,
        more: 0,
    }
}

// One number and a range, in order, the number once where the range has it.
pub fn joined(taken: u32, first: u32, size: u32) -> Segment
    requires { first + size ≤ 100000 }
    ensures { result ≡ joined_of taken first size }
{
    if taken < first {
        return Segment {
            first: taken,
            size: 1,
            next: first,
            more: size,
        };
    }
    if taken < first + size {
        return alone(first, size);
    }
    Segment {
        first,
        size,
        next: taken,
        more: 1,
    }
}

// The size of a range where b is a member, else none.
pub fn size_if(counts: bool, members: &[u32], b: usize, size: u32) -> u32
    ensures { result ≡ size_if counts (one_at members.now b) size }
{
    if counts {
        if tally::number(members, b) == 1 {
            return size;
        }
    }
    0
}

// What condition b adds to a list of an unfolded event: of a persistent one the copy that it takes, and where the list is of
// postconditions all copies that its event marks.
fn segment_at<'a>(
    table: &'a [u8],
    users: &'a [u32],
    bases: &'a [u32],
    marks: &'a [u32],
    uses: &'a [u32],
    chosen: &'a [u32],
    pre: &'a [u8],
    members: &'a [u32],
    post: bool,
    own: Coloured,
    b: usize,
) -> Segment
    requires known { Known table.now users.now bases.now marks.now uses.now chosen.now pre.now members.now post own.event own.rest }
    requires b_bound { b < (net_of table.now).conditions }
    ensures { within result ≡ added (net_of table.now) post (event_at (net_of table.now) own.event own.rest) b }
{
    let base = tally::number(bases, b);
    if colours::is_persistent(table, b) {
        let width = tally::number(users, b);
        let first = base + tally::number(marks, b) * width;
        let size = size_if(post, members, b, width);
        if words::has(pre, b) {
            let taken = base + tally::number(chosen, b) * width + tally::number(uses, b);
            return joined(taken, first, size);
        }
        return alone(first, size);
    }
    alone(base, size_if(true, members, b, 1))
}

// The segment of condition b, kept as the two ranges that follow those of the conditions before it.
pub fn keep_segment(g: Segment, b: usize, starts: &mut [u32], sizes: &mut [u32])
    requires { (2 * b + 1 < length starts.old) × (2 * b + 1 < length sizes.old) }
    ensures { ranged starts.new sizes.new (2 * (b + 1)) ≡ ranged starts.old sizes.old (2 * b) ++ within g }
{
    starts[2 * b] = g.first;
    sizes[2 * b] = g.size;
    starts[2 * b + 1] = g.next;
    sizes[2 * b + 1] = g.more;
}

// The segments of all conditions, as ranges two by two.
fn lay<'a>(
    table: &'a [u8],
    users: &'a [u32],
    bases: &'a [u32],
    marks: &'a [u32],
    uses: &'a [u32],
    chosen: &'a [u32],
    pre: &'a [u8],
    members: &'a [u32],
    post: bool,
    own: Coloured,
    starts: &mut [u32],
    sizes: &mut [u32],
)
    requires known { Known table.now users.now bases.now marks.now uses.now chosen.now pre.now members.now post own.event own.rest }
    requires table_value { conditions table.now ≡ (net_of table.now).conditions }
    requires starts_len { (length starts.old ≡ 512) × (length sizes.old ≡ 512) }
    ensures { ranged starts.new sizes.new (2 * conditions table.now) ≡ spread (added (net_of table.now) post (event_at (net_of table.now) own.event own.rest)) (count 0 (conditions table.now)) }
{
    let n = records::conditions(table) as usize;
    for b in 0..n {
        let g = segment_at(
            table, users, bases, marks, uses, chosen, pre, members, post, own, b,
        );
        keep_segment(g, b, starts, sizes);
    }
}

// One list of an unfolded event, as ranges; how many.
pub fn ranges<'a>(
    table: &'a [u8],
    markers: &'a [u32],
    users: &'a [u32],
    bases: &'a [u32],
    own: Coloured,
    post: bool,
    starts: &mut [u32],
    sizes: &mut [u32],
) -> usize
    requires owned { Owned table.now markers.now users.now bases.now own.event own.at own.weight own.rest }
    requires starts_len { (length starts.old ≡ 512) × (length sizes.old ≡ 512) }
    ensures { Ranges (net_of table.now) post (sum (size (net_of table.now)) own.event + own.rest) starts.new sizes.new result }
{
    let mut marks = [0u32; 256];
    let mut uses = [0u32; 256];
    let mut chosen = [0u32; 256];
    tally::tally(table, own.event, true, 1, &mut marks);
    tally::tally(table, own.event, false, 0, &mut uses);
    let pre = tally::list_at(table, own.at, false);
    choose(table, markers, pre, own.weight, own.rest, &mut chosen);
    let members = tally::members(tally::list_at(table, own.at, post));
    lay(
        table, users, bases, &marks, &uses, &chosen, pre, &members, post, own, starts, sizes,
    );
    2 * records::conditions(table) as usize
}

// The sum of so many sizes.
pub fn total(sizes: &[u32], ranges: usize) -> usize
    requires ranges_bound { ranges ≤ 2048 }
    requires ranges_in_bounds { ranges ≤ length sizes.now }
    ensures { result ≡ sum (λ i. get_or sizes.now i 0) ranges }
{
    let mut sum: usize = 0;
    for size in &sizes[..ranges] {
        sum = sum + *size as usize;
    }
    sum
}
