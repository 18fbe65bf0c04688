// What may be asked of a table: its events, its lists as parts of its own bytes, and its conditions.
#![tactic(auto)]

ghost use Rattle.std.specs.Prelude.{◌≡◌, get_or};
ghost use Rattle.words.specs.Words.{words};
ghost use Rattle.records.specs.Parts.{Part};
ghost use Rattle.parts.specs.Asked.{asked_of, asked_condition_of, pre_part_of, post_part_of, marking_part_of, pre_place_of, post_place_of, marking_place_of, persistence_of};
ghost use Rattle.table.specs.Decoded.{net_of, list_of};

use refusal::{Refusal, TableCondition, TableEvent};

// What kind of condition one is.
#[derive(Clone, Copy)]
pub enum Persistence {
    Ordinary,
    Persistent,
}

// Asked for event e: the offset of its record, or the refusal.
pub fn asked(table: &[u8], e: TableEvent) -> Result<usize, Refusal>
    ensures { result ≡ asked_of table.now e.0 }
{
    let n = table::judge(table)?;
    let wanted = e.0;
    if (wanted as usize) < n {
        Ok(table::offset(table, wanted))
    } else {
        refusal::refused(10, 0)
    }
}

// Asked for condition b: the offset of its byte, or the refusal.
pub fn asked_condition(table: &[u8], b: TableCondition) -> Result<usize, Refusal>
    ensures { result ≡ asked_condition_of table.now b.0 }
{
    table::judge(table)?;
    let wanted = b.0;
    if wanted < records::conditions(table) {
        Ok(records::front(table) + 4 + wanted as usize)
    } else {
        refusal::refused(10, 0)
    }
}

// Whether condition b is persistent, or the refusal.
pub fn persistent(table: &[u8], b: TableCondition) -> Result<Persistence, Refusal>
    ensures { result ≡ persistence_of table.now b.0 }
{
    let at = asked_condition(table, b)?;
    if words::byte(table, at) == 1 {
        Ok(Persistence::Persistent)
    } else {
        Ok(Persistence::Ordinary)
    }
}

// The preconditions of event e, not copied: the bytes of the caller's table that hold them.
pub fn pre_part(table: &[u8], e: TableEvent) -> &[u8]
    ensures shown { Part result table.entry (pre_place_of table.now e.0) (pre_part_of table.now e.0) }
    ensures read { words result.now ≡ list_of (net_of table.now) (net_of table.now).preconditions e.0 }
{
    let r = asked(table, e);
    let Ok(at) = r else {
        return &table[..0];
    };
    records::pre_at(table, at)
}

// The postconditions of event e, likewise.
pub fn post_part(table: &[u8], e: TableEvent) -> &[u8]
    ensures shown { Part result table.entry (post_place_of table.now e.0) (post_part_of table.now e.0) }
    ensures read { words result.now ≡ list_of (net_of table.now) (net_of table.now).postconditions e.0 }
{
    let r = asked(table, e);
    let Ok(at) = r else {
        return &table[..0];
    };
    records::post_at(table, at)
}

// The start's conditions, likewise.
pub fn marking_part(table: &[u8]) -> &[u8]
    ensures shown { Part result table.entry (marking_place_of table.now) (marking_part_of table.now) }
    ensures read { words result.now ≡ (net_of table.now).start }
{
    let r = table::judge(table);
    let Ok(n) = r else {
        return &table[..0];
    };
    records::marking_at(table, table::offset(table, n as u16))
}

// The k-th condition of a list that is shown as a part of the table; 0 past its end.
pub fn condition_in(part: &[u8], k: usize) -> TableCondition
    ensures { result.0 ≡ get_or (words part.now) k 0 }
{
    if k < part.len() / 2 {
        TableCondition(words::word(part, 2 * k))
    } else {
        TableCondition(0)
    }
}
