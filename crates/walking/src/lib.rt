// The ranges of an unfolded event walked on an unfolded marking: what stops the event, and bytes set at its conditions.
#![tactic(auto)]

ghost use Rattle.std.specs.Prelude.{◌≡◌, [], ◌≤◌, ◌<◌, length};
ghost use Rattle.lists.specs.Lists.{mem, failing, count};
ghost use Rattle.model.specs.Unfolding.{basic};
ghost use Rattle.model.specs.Lent.{marking};
ghost use Rattle.table.specs.Decoded.{net_of};
ghost use Rattle.segments.specs.Ranges.{ranged};
ghost use Rattle.step.specs.Steps.{set_all};
ghost use Rattle.stopping.specs.Unfolded.{step_of};
ghost use Rattle.walking.specs.Steps.{passes_of, failing_of, stops, Summed, Kept, Below, BelowIn};

use refusal::UnfoldedCondition;
use stopping::Cause;

// Whether an unfolded condition holds.
fn holds(state: &[u8], k: u32) -> bool
    ensures { result ≡ marking state.now k }
{
    words::byte(state, k as usize) == 1
}

// Whether a number lies in a range.
fn in_range(first: u32, size: u32, k: u32) -> bool
    ensures { result ≡ mem k (count first size) }
{
    if k < first {
        return false;
    }
    k - first < size
}

// Whether a number lies in one of so many ranges.
fn in_ranges<'a>(starts: &'a [u32], sizes: &'a [u32], ranges: usize, k: u32) -> bool
    requires { Kept starts.now sizes.now ranges }
    ensures { result ≡ mem k (ranged starts.now sizes.now ranges) }
{
    (0..ranges).any(|i| in_range(starts[i], sizes[i], k))
}

// Whether an unfolded condition follows the old rule: its table asks for it, and its condition is ordinary.
fn follows_old<'a>(table: &'a [u8], bases: &'a [u32], k: u32) -> bool
    requires summed { Summed table.now bases.now }
    requires k_bound { k < (basic (net_of table.now)).conditions }
    ensures { result ≡ (basic (net_of table.now)).old k }
{
    if records::old_rule(table) {
        let count = records::conditions(table) as usize;
        let b = conditions::owner(table, bases, count, k);
        return !colours::is_persistent(table, b);
    }
    false
}

// Whether an unfolded condition passes: it holds, or where contact is looked for it does not hold, or is taken and not under the old rule.
fn passes<'a>(
    table: &'a [u8],
    bases: &'a [u32],
    contact: bool,
    state: &'a [u8],
    starts: &'a [u32],
    sizes: &'a [u32],
    ranges: usize,
    k: u32,
) -> bool
    requires summed { Summed table.now bases.now }
    requires below { Below starts.now sizes.now ranges (basic (net_of table.now)).conditions }
    ensures { result ≡ passes_of contact (marking state.now) (ranged starts.now sizes.now ranges) (basic (net_of table.now)).old k }
{
    let held = holds(state, k);
    if contact {
        if held {
            if in_ranges(starts, sizes, ranges, k) {
                return !follows_old(table, bases, k);
            }
            return false;
        }
        return true;
    }
    held
}

// The first number of a range that fails.
fn first_in<'a>(
    table: &'a [u8],
    bases: &'a [u32],
    contact: bool,
    state: &'a [u8],
    starts: &'a [u32],
    sizes: &'a [u32],
    ranges: usize,
    first: u32,
    size: u32,
) -> Option<UnfoldedCondition>
    requires summed { Summed table.now bases.now }
    requires below { Below starts.now sizes.now ranges (basic (net_of table.now)).conditions }
    requires below_in { BelowIn first size (basic (net_of table.now)).conditions }
    ensures { result ≡ failing_of (failing (passes_of contact (marking state.now) (ranged starts.now sizes.now ranges) (basic (net_of table.now)).old) (count first size)) }
{
    (first..first + size)
        .find(|k| !passes(table, bases, contact, state, starts, sizes, ranges, *k))
        .map(|k| UnfoldedCondition(k as u16))
}

// The first number of a list of ranges that fails, the taken ones being ranges too.
fn first_failing<'a>(
    table: &'a [u8],
    bases: &'a [u32],
    contact: bool,
    state: &'a [u8],
    starts: &'a [u32],
    sizes: &'a [u32],
    ranges: usize,
    firsts: &'a [u32],
    widths: &'a [u32],
    all: usize,
) -> Option<UnfoldedCondition>
    requires summed { Summed table.now bases.now }
    requires below { Below starts.now sizes.now ranges (basic (net_of table.now)).conditions }
    requires below_2 { Below firsts.now widths.now all (basic (net_of table.now)).conditions }
    ensures { result ≡ failing_of (failing (passes_of contact (marking state.now) (ranged starts.now sizes.now ranges) (basic (net_of table.now)).old) (ranged firsts.now widths.now all)) }
{
    for i in 0..all {
        if let Some(b) = first_in(
            table, bases, contact, state, starts, sizes, ranges, firsts[i], widths[i],
        ) {
            return Some(b);
        }
    }
    None
}

// What stops an event with these lists, taken and put, if anything does.
pub fn test<'a>(
    table: &'a [u8],
    bases: &'a [u32],
    state: &'a [u8],
    starts: &'a [u32],
    sizes: &'a [u32],
    ranges: usize,
    firsts: &'a [u32],
    widths: &'a [u32],
    all: usize,
) -> Result<(), Cause<UnfoldedCondition>>
    requires summed { Summed table.now bases.now }
    requires below { Below starts.now sizes.now ranges (basic (net_of table.now)).conditions }
    requires below_2 { Below firsts.now widths.now all (basic (net_of table.now)).conditions }
    ensures { result ≡ step_of (stops (marking state.now) (ranged starts.now sizes.now ranges) (ranged firsts.now widths.now all) (basic (net_of table.now)).old) }
{
    let lacking = first_failing(
        table, bases, false, state, starts, sizes, ranges, starts, sizes, ranges,
    );
    if let Some(b) = lacking {
        return Err(Cause::Lacks(b));
    }
    let contact = first_failing(
        table, bases, true, state, starts, sizes, ranges, firsts, widths, all,
    );
    if let Some(b) = contact {
        return Err(Cause::Meets(b));
    }
    Ok(())
}

// Each condition of a range set to a byte.
fn set_range(first: u32, size: u32, value: u8, state: &mut [u8])
    requires below_in { BelowIn first size (length state.old) }
    requires state_len_bound { length state.old ≤ 65535 }
    ensures { state.new ≡ set_all [] value (count first size) state.old }
{
    for k in first..first + size {
        state[k as usize] = value;
    }
}

// Each condition of so many ranges set to a byte.
pub fn set_ranges<'a>(
    starts: &'a [u32],
    sizes: &'a [u32],
    ranges: usize,
    value: u8,
    state: &mut [u8],
)
    requires below { Below starts.now sizes.now ranges (length state.old) }
    requires state_len_bound { length state.old ≤ 65535 }
    ensures { state.new ≡ set_all [] value (ranged starts.now sizes.now ranges) state.old }
{
    for i in 0..ranges {
        set_range(starts[i], sizes[i], value, state);
    }
}
