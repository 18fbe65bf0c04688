// A table judged in one pass, its counts, and where its events stand.
#![tactic(auto)]

ghost use Rattle.std.specs.Prelude.{◌≡◌, ◌≤◌, Ok};
ghost use Rattle.refusal.specs.Answer.{and_then};
ghost use Rattle.records.specs.Records.{header_of};
ghost use Rattle.table.specs.Walk.{kind_is, judge_of, offset_of};
ghost use Rattle.table.specs.Decoded.{net_of};

pub mod in_order;

use in_order::Events;
use refusal::Refusal;

// Whether a whole Event record stands at an offset.
pub fn is_event(table: &[u8], at: usize) -> bool
    ensures { result ≡ kind_is 2 (header_of table.now at) }
{
    match records::header_at(table, at) {
        Some(header) => header.kind == 2,
        None => false,
    }
}

// The table, judged; fine: the number of its events.
pub fn judge(table: &[u8]) -> Result<usize, Refusal>
    ensures { result ≡ judge_of table.now }
{
    let rule = rules::rule_record(table);
    let Ok(front) = rule else {
        return rule;
    };
    let first = rules::conditions_record(table, front);
    let Ok(start) = first else {
        return first;
    };
    let mut at = start;
    let mut left: usize = 256;
    while is_event(table, at) {
        if left == 0 {
            return refusal::refused(6, at);
        }
        let r = event_rules::event_record(table, at);
        let Ok(next) = r else {
            return r;
        };
        at = next;
        left = left - 1;
    }
    let last = rules::marking_record(table, at);
    let Ok(_) = last else {
        return last;
    };
    Ok(256 - left)
}

// The offset of event e, counted along the lengths; past the last event, that of the Marking record.
pub fn offset(table: &[u8], e: u16) -> usize
    ensures { result ≡ offset_of table.now e }
{
    let mut at = records::front(table) + 4 + records::conditions(table) as usize;
    let mut left = e;
    while 0 < left {
        at = at + 4 + words::word(table, at) as usize;
        left = left - 1;
    }
    at
}

// The number of the table's conditions.
pub fn condition_count(table: &[u8]) -> Result<usize, Refusal>
    ensures { result ≡ and_then (judge_of table.now) (λ _. Ok (net_of table.now).conditions) }
{
    judge(table)?;
    Ok(records::conditions(table) as usize)
}

// The number of the table's events.
pub fn event_count(table: &[u8]) -> Result<usize, Refusal>
    ensures { result ≡ and_then (judge_of table.now) (λ _. Ok (net_of table.now).events) }
{
    judge(table)
}

// A walk over the first events of a judged table, up to a number.
#[inline]
pub fn events(table: &[u8], end: usize) -> Events<'_>
    requires { end ≤ (net_of table.now).events }
    ensures same_table { result.table.now ≡ table.now }
    ensures from_first { result.number ≡ 0 }
    ensures to_end { result.end ≡ end }
{
    Events {
        table,
        number: 0,
        at: offset(table, 0),
        end,
    }
}
