// The lift of a run of a table: each step's event becomes an unfolded event by what it picks, on a first occurrence or on a later one;
// the call stands at the end.
#![tactic(auto)]

ghost use Rattle.std.specs.Prelude.{◌≡◌, ◌++◌, length, drop};
ghost use Rattle.model.specs.Runs.{opening};
ghost use Rattle.model.specs.Across.{own_or_earliest, lifting};
ghost use Rattle.table.specs.Decoded.{net_of};
ghost use Rattle.refusal.specs.Answer.{written};
ghost use Rattle.across.specs.Calls.{fitted, numbers_of};
ghost use Rattle.lift.specs.Calls.{lift_of, lifted_of};
ghost use Rattle.lift.specs.Played.{numbers_for, Writing, Liftable};

use refusal::Refusal;

// The number of each step's event, to the front of a lent output: that of its first occurrence, and from then on the later one.
fn write_lifted<'a>(later: &'a [u32], run: &'a [u16], numbers: &mut [u32], out: &mut [u16])
    requires { Writing later.now numbers.old run.now (length out.old) }
    ensures { out.new ≡ numbers_for later.now numbers.old run.now ++ drop (length run.now) out.old }
{
    for (k, event) in run.iter().enumerate() {
        let e = usize::from(*event);
        out[k] = numbers[e] as u16;
        numbers[e] = later[e];
    }
}

// A run that was accepted is lifted: 15 at its first repeat, then 16; fine: the number of its steps.
fn lift_played<'a>(
    table: &'a [u8],
    events: usize,
    markers: &'a [u32],
    users: &'a [u32],
    before: &'a [u32],
    offsets: &'a [usize],
    run: &'a [u16],
    out: &mut [u16],
) -> Result<usize, Refusal>
    requires { Liftable table.now events markers.now users.now before.now offsets.now run.now }
    ensures answer { result ≡ fitted (lifting (net_of table.now) (own_or_earliest (net_of table.now)) 0 (opening (net_of table.now)) run.now) (length out.old) }
    ensures after { out.new ≡ written result (numbers_of (lifting (net_of table.now) (own_or_earliest (net_of table.now)) 0 (opening (net_of table.now)) run.now)) out.old }
{
    let mut once = [0u8; 256];
    repeats::once_only(table, events, users, &mut once);
    let mut seen = [0u8; 256];
    let walked = firsts::walk(table, events, offsets, &once, run, &mut seen);
    if let Some(k) = walked.repeat {
        return refusal::refused(15, k);
    }
    if out.len() < run.len() {
        return refusal::refused(16, run.len());
    }
    let firsts = walked.firsts;
    let mut numbers = [0u32; 256];
    places::settled_numbers(table, events, markers, before, firsts, &mut numbers);
    let own = later::own_markers(table, events, users, firsts);
    let mut later = [0u32; 256];
    places::settled_numbers(table, events, markers, before, own, &mut later);
    write_lifted(&later, run, &mut numbers, out);
    Ok(run.len())
}

// A run of the table lifted to one of its unfolding, which is written to a lent output.
pub fn lift<'a>(table: &'a [u8], run: &'a [u16], out: &mut [u16]) -> Result<usize, Refusal>
    ensures answer { result ≡ lift_of table.now run.now (length out.old) }
    ensures after { out.new ≡ lifted_of table.now run.now out.old }
{
    let mut markers = [0u32; 256];
    let mut users = [0u32; 256];
    let mut bases = [0u32; 257];
    let mut before = [0u32; 257];
    let events = across::lay_out_run(
        table,
        run.len(),
        &mut markers,
        &mut users,
        &mut bases,
        &mut before,
    )?;
    let mut offsets = [0usize; 256];
    played::fill(table, events, &mut offsets);
    let start = played::start_held(table, events);
    played::play(table, events, &offsets, run, start)?;
    lift_played(table, events, &markers, &users, &before, &offsets, run, out)
}
