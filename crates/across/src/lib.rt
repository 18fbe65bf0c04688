// What the lift and the projection of a run do first: the table laid out, the run's length tested, and how many unfolded events stand
// before each event.
#![tactic(auto)]

ghost use Rattle.std.specs.Prelude.{◌≡◌, length};
ghost use Rattle.model.specs.Numbering.{size};
ghost use Rattle.table.specs.Decoded.{net_of};
ghost use Rattle.layout.specs.Laid.{Sums};
ghost use Rattle.unfolding.specs.Numbers.{Within};
ghost use Rattle.across.specs.Prepared.{Prepared, Between, Around};

use refusal::Refusal;

// Before each event, and after the last, how many unfolded events stand before it.
pub fn sizes_before<'a>(table: &'a [u8], events: usize, markers: &'a [u32], before: &mut [u32])
    requires within { Within table.now markers.now events }
    requires before_len { length before.old ≡ 257 }
    ensures { Sums (size (net_of table.now)) (net_of table.now).events before.new }
{
    let mut total: u32 = 0;
    for event in table::events(table, events) {
        before[event.number] = total;
        total = total + colours::colours(table, markers, tally::list_at(table, event.at, false));
    }
    before[events] = total;
}

// A table laid out for a run of so many steps: 1 to 9, then 3, then 13 and 14; fine: the number of its events.
pub fn lay_out_run(
    table: &[u8],
    steps: usize,
    markers: &mut [u32],
    users: &mut [u32],
    bases: &mut [u32],
    before: &mut [u32],
) -> Result<usize, Refusal>
    requires markers_len { (length markers.old ≡ 256) × (length users.old ≡ 256) × (length bases.old ≡ 257) }
    requires before_len { length before.old ≡ 257 }
    ensures { Prepared table.now steps result markers.new users.new bases.new before.new }
{
    if refusal::MOST_STEPS < steps {
        table::judge(table)?;
        return refusal::refused(3, 0);
    }
    let events = layout::lay_out(table, markers, users, bases)?;
    sizes_before(table, events, &markers[..], before);
    Ok(events)
}

// The event that an unfolded event's number belongs to, found by halving.
pub fn event_of(before: &[u32], events: usize, j: u32) -> usize
    requires { Around before.now 0 events j }
    ensures { Between before.now events j result }
{
    let mut low: usize = 0;
    let mut high = events;
    while 1 < high - low {
        let middle = low + (high - low) / 2;
        if before[middle] <= j {
            low = middle;
        } else {
            high = middle;
        }
    }
    low
}
