// The two files of a listing opened once: judged in order, the run lifted, its end reached, and what the text is written from put into
// lent memory.
#![tactic(auto)]

ghost use Rattle.std.specs.Prelude.{◌≡◌, ◌≤◌, length, replicate};
ghost use Rattle.model.specs.Across.{most_steps, most_unfolded};
ghost use Rattle.opening.specs.Opening.{Empty, Reaches, SetsUp, Opens};

use refusal::Refusal;

// What the two files are opened to: how many steps, events, conditions and unfolded conditions there are.
#[derive(Clone, Copy)]
pub struct Opened {
    pub steps: usize,
    pub events: usize,
    pub conditions: usize,
    pub unfolded: usize,
}

// A run lifted, and the unfolded marking that its lift ends in; fine: the number of unfolded conditions.
fn reach_end<'a>(
    table: &'a [u8],
    run: &'a [u16],
    lifted: &mut [u16],
    end: &mut [u8],
) -> Result<usize, Refusal>
    requires { (length lifted.old ≡ most_steps) × (length end.old ≡ most_unfolded) }
    ensures { Reaches table.now run.now result lifted.new end.new }
{
    let count = lift::lift(table, run, lifted)?;
    ends::unfolded_replay(table, &lifted[0..count], end)
}

// The index of a table's events filled, and its start put into bytes that are all 0; fine: the number of events.
fn set_up(table: &[u8], offsets: &mut [usize], marking: &mut [u8]) -> Result<usize, Refusal>
    requires { (256 ≤ length offsets.old) × (marking.old ≡ replicate 256 0) }
    ensures { SetsUp table.now result offsets.new marking.new }
{
    let events = table::judge(table)?;
    played::fill(table, events, offsets);
    played::start(table, events, marking);
    Ok(events)
}

// The two files judged in order, the run lifted, the unfolded end reached, the index filled and the marking put to the start.
pub fn open_files<'a>(
    net: &'a [u8],
    run: &'a [u8],
    steps: &mut [u16],
    lifted: &mut [u16],
    offsets: &mut [usize],
    marking: &mut [u8],
    end: &mut [u8],
) -> Result<Opened, Refusal>
    requires { Empty steps.old lifted.old offsets.old marking.old end.old }
    ensures { Opens net.now run.now result steps.new lifted.new offsets.new marking.new end.new }
{
    let count = listing::read_files(net, run, steps)?;
    let unfolded = reach_end(net, &steps[0..count], lifted, end)?;
    let events = set_up(net, offsets, marking)?;
    Ok(Opened {
        steps: count,
        events,
        conditions: records::conditions(net) as usize,
        unfolded,
    })
}
