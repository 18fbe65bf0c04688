// The numbers of unfolded conditions: for an ordinary condition, and for a persistent one with a marker and a user.
#![tactic(auto)]

ghost use Rattle.std.specs.Prelude.{◌≡◌};
ghost use Rattle.condition_numbers.specs.Answers.{ordinary_number, copy_number};

use refusal::{Marker, Refusal, TableCondition, TableEvent};

// The number for an ordinary condition.
pub fn ordinary_number(table: &[u8], b: TableCondition) -> Result<usize, Refusal>
    ensures { result ≡ ordinary_number table.now b.0 }
{
    let mut markers = [0u32; 256];
    let mut users = [0u32; 256];
    let mut bases = [0u32; 257];
    layout::lay_out(table, &mut markers, &mut users, &mut bases)?;
    let wanted = b.0;
    if records::conditions(table) <= wanted {
        return refusal::refused(10, 0);
    }
    if colours::is_persistent(table, wanted as usize) {
        return refusal::refused(10, 0);
    }
    Ok(tally::number(&bases, wanted as usize) as usize)
}

// The number for a persistent condition with a marker and a user.
pub fn copy_number(
    table: &[u8],
    b: TableCondition,
    marker: Marker,
    user: TableEvent,
) -> Result<usize, Refusal>
    ensures { result ≡ copy_number table.now b.0 marker user.0 }
{
    let mut markers = [0u32; 256];
    let mut users = [0u32; 256];
    let mut bases = [0u32; 257];
    let events = layout::lay_out(table, &mut markers, &mut users, &mut bases)?;
    let wanted = b.0 as usize;
    if colours::is_persistent(table, wanted) {
        let m = unfolding::marker_place(table, events, wanted, marker);
        if (tally::number(&markers, wanted) as usize) <= m {
            return refusal::refused(10, 0);
        }
        let reader = user.0 as usize;
        let u = tally::place(table, events, false, wanted, reader);
        let width = tally::number(&users, wanted) as usize;
        if width <= u {
            return refusal::refused(10, 0);
        }
        return Ok(tally::number(&bases, wanted) as usize + (m * width + u));
    }
    refusal::refused(10, 0)
}
