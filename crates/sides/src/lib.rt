// The four sides of an unfolded event in the doubled net, as ranges of numbers: what it takes and puts, and what it newly fills and empties.
#![tactic(auto)]

ghost use Rattle.std.specs.Prelude.{◌≡◌, map, ◌+◌, ◌*◌, ◌≤◌, length};
ghost use Rattle.lists.specs.Lists.{count, spread};
ghost use Rattle.records.specs.Records.{conditions, pre_part};
ghost use Rattle.table.specs.Decoded.{net_of};
ghost use Rattle.segments.specs.Ranges.{ranged, within, event_at};
ghost use Rattle.sides.specs.Sides.{added_on, parted_of, Sided};
ghost use Rattle.sides.specs.Shares.{share_of, share_at, side_of, Sharing};

use segments::Segment;
use unfolding::Coloured;

// What an unfolded event does: it takes, it fills what it did not take, it puts, it empties what it does not put back; under the old rule
// what is both is filled and emptied too.
#[derive(Clone, Copy)]
pub enum Side {
    Takes,
    Fills,
    Puts,
    Empties,
}

// What an unfolded event has of one condition of the table: a number, whether it takes that, whether it gives it back by the paper's rule,
// and the range of those that its event marks.
#[derive(Clone, Copy)]
struct Share {
    number: u32,
    takes: u32,
    back: bool,
    first: u32,
    size: u32,
}

// Such a share, from its parts.
fn shared(number: u32, takes: u32, back: bool, first: u32, size: u32) -> Share
    ensures { result ≡ share_of number takes back first size }
{
    Share {
        number,
        takes,
        back,
        first,
        size,
    }
}

// A range without one number, which may be outside it.
fn parted(taken: u32, first: u32, size: u32) -> Segment
    requires { first + size ≤ 100000 }
    ensures { result ≡ parted_of taken first size }
{
    if taken < first {
        return segments::alone(first, size);
    }
    if taken < first + size {
        return Segment {
            first,
            size: taken - first,
            next: taken + 1,
            more: first + size - (taken + 1),
        };
    }
    segments::alone(first, size)
}

// What an unfolded event has of condition b: of a persistent one the copy that it takes and gives back, and all copies that its event marks;
// an ordinary one is given back only by the paper's rule.
fn share_at<'a>(
    table: &'a [u8],
    users: &'a [u32],
    bases: &'a [u32],
    marks: &'a [u32],
    uses: &'a [u32],
    chosen: &'a [u32],
    before: &'a [u32],
    after: &'a [u32],
    paper: bool,
    b: usize,
) -> Share
    requires { Sharing table.now users.now bases.now marks.now uses.now chosen.now before.now b }
    ensures { result ≡ share_at table.now users.now bases.now marks.now uses.now chosen.now before.now after.now paper b }
{
    let base = tally::number(bases, b);
    let takes = segments::size_if(true, before, b, 1);
    if colours::is_persistent(table, b) {
        let width = tally::number(users, b);
        let first = base + tally::number(marks, b) * width;
        let size = segments::size_if(true, after, b, width);
        if takes == 1 {
            let taken = base + tally::number(chosen, b) * width + tally::number(uses, b);
            return shared(taken, takes, true, first, size);
        }
        return shared(first, takes, false, first, size);
    }
    let size = segments::size_if(true, after, b, 1);
    let back = segments::size_if(paper, after, b, takes);
    shared(base, takes, back == 1, base, size)
}

// The numbers of a share that are on a side.
fn side_of(share: Share, side: Side) -> Segment
    requires { (share.number ≤ 65536) × (share.takes ≤ 1) × (share.first + share.size ≤ 65536) }
    ensures { result ≡ side_of side share }
{
    match side {
        Side::Takes => segments::alone(share.number, share.takes),
        Side::Fills => {
            if share.back {
                return parted(share.number, share.first, share.size);
            }
            segments::alone(share.first, share.size)
        }
        Side::Puts => {
            if share.back {
                return segments::joined(share.number, share.first, share.size);
            }
            segments::alone(share.first, share.size)
        }
        Side::Empties => {
            if share.back {
                return segments::alone(share.number, 0);
            }
            segments::alone(share.number, share.takes)
        }
    }
}

// A segment with every number raised by a shift.
fn shifted(g: Segment, shift: u32) -> Segment
    requires { (g.first ≤ 100000) × (g.next ≤ 100000) × (shift ≤ 65535) }
    ensures { within result ≡ map (λ x. shift + x) (within g) }
{
    Segment {
        first: shift + g.first,
        size: g.size,
        next: shift + g.next,
        more: g.more,
    }
}

// A side of an unfolded event, its numbers raised by a shift, as two ranges for each condition.
pub fn lay_side<'a>(
    table: &'a [u8],
    users: &'a [u32],
    bases: &'a [u32],
    marks: &'a [u32],
    uses: &'a [u32],
    chosen: &'a [u32],
    before: &'a [u32],
    after: &'a [u32],
    side: Side,
    own: Coloured,
    shift: u32,
    starts: &mut [u32],
    sizes: &mut [u32],
)
    requires sided { Sided table.now users.now bases.now marks.now uses.now chosen.now (pre_part table.now own.at) before.now after.now own.event own.rest }
    requires table_value { conditions table.now ≡ (net_of table.now).conditions }
    requires table_in_bounds { (2 * conditions table.now ≤ length starts.old) × (2 * conditions table.now ≤ length sizes.old) }
    requires shift_bound { shift ≤ 65535 }
    ensures { ranged starts.new sizes.new (2 * conditions table.now) ≡ map (λ x. shift + x) (spread (added_on (net_of table.now) side (event_at (net_of table.now) own.event own.rest)) (count 0 (conditions table.now))) }
{
    let n = records::conditions(table) as usize;
    let paper = !records::old_rule(table);
    for b in 0..n {
        let share = share_at(
            table, users, bases, marks, uses, chosen, before, after, paper, b,
        );
        let g = shifted(side_of(share, side), shift);
        segments::keep_segment(g, b, starts, sizes);
    }
}
