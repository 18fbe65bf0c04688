// The preconditions and postconditions of one unfolded event, in a lent output: the public calls stand at the end.
#![tactic(auto)]

ghost use Rattle.std.specs.Prelude.{◌≡◌, true, false, ◌+◌, ◌≤◌, length};
ghost use Rattle.std.proofs.lemmas.List.Edits.{sets};
ghost use Rattle.lists.specs.Lists.{count};
ghost use Rattle.segments.specs.Ranges.{ranged};
ghost use Rattle.unfolded_lists.specs.Calls.{unfolded_list_of, unfolded_listed_of};
ghost use Rattle.unfolded_lists.specs.Puts.{Small, Fits};

use refusal::{Refusal, UnfoldedEvent};
use unfolding::Coloured;

// The numbers of one range, put into a lent output from an element on.
fn put_range(first: u32, size: u32, at: usize, out: &mut [u16])
    requires small { Small first size }
    requires size_in_bounds { at + size ≤ length out.old }
    ensures { out.new ≡ sets out.old at (count first size) }
{
    for i in 0..size {
        out[at + i as usize] = (first + i) as u16;
    }
}

// The numbers of so many ranges, put into a lent output from its first element on.
fn put_ranges<'a>(starts: &'a [u32], sizes: &'a [u32], ranges: usize, out: &mut [u16])
    requires { Fits starts.now sizes.now ranges (length out.old) }
    ensures { out.new ≡ sets out.old 0 (ranged starts.now sizes.now ranges) }
{
    let mut at: usize = 0;
    for i in 0..ranges {
        let size = sizes[i];
        put_range(starts[i], size, at, out);
        at = at + size as usize;
    }
}

// One list of an unfolded event, written into a lent output.
fn write_list(table: &[u8], j: UnfoldedEvent, post: bool, out: &mut [u16]) -> Result<usize, Refusal>
    ensures answer { result ≡ unfolded_list_of table.now post j.0 (length out.old) }
    ensures after { out.new ≡ unfolded_listed_of table.now post j.0 out.old }
{
    let mut markers = [0u32; 256];
    let mut users = [0u32; 256];
    let mut bases = [0u32; 257];
    let events = layout::lay_out(table, &mut markers, &mut users, &mut bases)?;
    let wanted = j.0 as u32;
    let Some(own) = unfolding::owner(table, events, &markers, wanted) else {
        return refusal::refused(10, 0);
    };
    let mut starts = [0u32; 512];
    let mut sizes = [0u32; 512];
    let k = segments::ranges(
        table,
        &markers,
        &users,
        &bases,
        own,
        post,
        &mut starts,
        &mut sizes,
    );
    let needed = segments::total(&sizes, k);
    if out.len() < needed {
        return refusal::refused(16, needed);
    }
    put_ranges(&starts, &sizes, k, out);
    Ok(needed)
}

// The preconditions of an unfolded event, ascending, in a lent output.
pub fn unfolded_pre(table: &[u8], j: UnfoldedEvent, out: &mut [u16]) -> Result<usize, Refusal>
    ensures answer { result ≡ unfolded_list_of table.now false j.0 (length out.old) }
    ensures after { out.new ≡ unfolded_listed_of table.now false j.0 out.old }
{
    write_list(table, j, false, out)
}

// The postconditions of an unfolded event, ascending, in a lent output.
pub fn unfolded_post(table: &[u8], j: UnfoldedEvent, out: &mut [u16]) -> Result<usize, Refusal>
    ensures answer { result ≡ unfolded_list_of table.now true j.0 (length out.old) }
    ensures after { out.new ≡ unfolded_listed_of table.now true j.0 out.old }
{
    write_list(table, j, true, out)
}
