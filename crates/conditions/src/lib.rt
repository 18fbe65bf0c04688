// What stands behind the number of an unfolded condition: an ordinary condition, or a persistent one with a marker and a user.
#![tactic(auto)]

ghost use Rattle.std.specs.Prelude.{◌≡◌, ◌≤◌};
ghost use Rattle.model.specs.Numbering.{width};
ghost use Rattle.table.specs.Decoded.{net_of};
ghost use Rattle.layout.specs.Laid.{Sums};
ghost use Rattle.conditions.specs.Origins.{condition_origin_of};
ghost use Rattle.conditions.specs.Owners.{Owns};

use refusal::{Marker, Refusal, TableCondition, TableEvent, UnfoldedCondition};

// What stands behind an unfolded condition's number: an ordinary condition, or a persistent one with its marker and user.
#[derive(Clone, Copy)]
pub enum ConditionOrigin {
    Ordinary(TableCondition),
    Copy(TableCondition, Marker, TableEvent),
}

// The condition that a number falls to, by the sums before each; the number of conditions where it is past the last.
pub fn owner<'a>(table: &'a [u8], bases: &'a [u32], count: usize, i: u32) -> usize
    requires sums { Sums (width (net_of table.now)) count bases.now }
    requires count_bound { count ≤ 256 }
    ensures { Owns (width (net_of table.now)) count i result }
{
    for b in 0..count {
        if i < tally::number(bases, b + 1) {
            return b;
        }
    }
    count
}

// What stands behind an unfolded condition's number.
pub fn condition_origin(table: &[u8], i: UnfoldedCondition) -> Result<ConditionOrigin, Refusal>
    ensures { result ≡ condition_origin_of table.now i.0 }
{
    let mut markers = [0u32; 256];
    let mut users = [0u32; 256];
    let mut bases = [0u32; 257];
    let events = layout::lay_out(table, &mut markers, &mut users, &mut bases)?;
    let wanted = i.0 as u32;
    let count = records::conditions(table) as usize;
    let b = owner(table, &bases, count, wanted);
    if count <= b {
        return refusal::refused(10, 0);
    }
    if colours::is_persistent(table, b) {
        let rest = wanted - tally::number(&bases, b);
        let width = tally::number(&users, b);
        let m = unfolding::marker_at(table, events, b, (rest / width) as usize);
        let u = tally::nth(table, events, false, b, (rest % width) as usize);
        return Ok(ConditionOrigin::Copy(TableCondition(b as u16), m, TableEvent(u as u16)));
    }
    Ok(ConditionOrigin::Ordinary(TableCondition(b as u16)))
}
