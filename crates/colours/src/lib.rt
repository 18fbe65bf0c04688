// Which conditions are persistent, and how many colours the persistent preconditions of an event leave it.
#![tactic(auto)]

ghost use Rattle.std.specs.Prelude.{◌≡◌, ◌*◌, ◌≤◌, eqb, length};
ghost use Rattle.lists.specs.Lists.{any, index};
ghost use Rattle.words.specs.Words.{words};
ghost use Rattle.colours.specs.Colours.{flagged_in, flagged, radices_in, radices, product, capped, ending};

// Whether condition b is persistent.
pub fn is_persistent(table: &[u8], b: usize) -> bool
    ensures { result ≡ flagged table.now b }
{
    let at = records::front(table);
    if b < words::word(table, at) as usize {
        words::byte(table, at + 4 + b) == 1
    } else {
        false
    }
}

// The product of two counts, cut one over `refusal::MOST_UNFOLDED`, where it is still over the limit.
fn capped_product(a: u32, b: u32) -> u32
    ensures { result ≡ capped (a * b) }
{
    let p = (a as u64) * (b as u64);
    if p <= 65536 { p as u32 } else { 65536 }
}

// Where the first persistent condition of a list stands, in bytes; past the last where there is none.
pub fn first_persistent<'a>(flags: &'a [u8], list: &'a [u8]) -> usize
    ensures { result ≡ 2 * index (flagged_in flags.now) (words list.now) }
{
    let place = words::numbers(list).position(|b| words::byte(flags, usize::from(b)) == 1);
    2 * place.unwrap_or(list.len() / 2)
}

// Whether some condition is persistent.
fn some_persistent(flags: &[u8]) -> bool
    ensures { result ≡ any (eqb 1) flags.now }
{
    flags.contains(&1)
}

// A count times the colours that the last bytes of a list of preconditions leave: a recursion down its persistent ones, capped above
// the limit, with the lists behind references so that all calls can use one frame.
fn colours_down<'a>(
    count: u32,
    flags: &&'a [u8],
    markers: &&[u32],
    pre: &&'a [u8],
    left: usize,
) -> u32
    requires count_bound { count ≤ 65536 }
    requires left_in_bounds { left ≤ length pre.now.now }
    ensures { result ≡ capped (count * product (radices_in flags.now.now markers.now.now (words (ending left pre.now.now)))) }
{
    let bytes = *flags;
    let list = *pre;
    let rest = &list[list.len() - left..];
    let i = first_persistent(bytes, rest);
    if left - i < 2 {
        return count;
    }
    let b = words::word_within(rest, i) as usize;
    let numbers = *markers;
    let product = capped_product(count, tally::number(numbers, b));
    colours_down(product, flags, markers, pre, left - i - 2)
}

// The colours that a whole list of preconditions leaves.
fn colours_left<'a>(flags: &'a [u8], markers: &[u32], pre: &'a [u8]) -> u32
    ensures { result ≡ capped (product (radices_in flags.now markers.now (words pre.now))) }
{
    let left = pre.len();
    colours_down(1, &flags, &markers, &pre, left)
}

// How many colours an event has; a list that is longer than the conditions' bytes is walked only if one of them is persistent.
pub fn colours<'a>(table: &'a [u8], markers: &[u32], pre: &'a [u8]) -> u32
    ensures { result ≡ capped (product (radices table.now markers.now (words pre.now))) }
{
    let flags = records::flags(table);
    if flags.len() < pre.len() {
        if some_persistent(flags) {
            return colours_left(flags, markers, pre);
        }
        return 1;
    }
    colours_left(flags, markers, pre)
}
