// A table with a place in it, for those who walk a table record by record; the work is in plain functions
// over the slice and the place, and what takes the struct is thin.
#![tactic(auto)]

ghost use Rattle.std.specs.Prelude.{◌≡◌};
ghost use Rattle.reader.specs.Read.{record_of, next_of};

use refusal::Refusal;

// A table and a place in it.
#[derive(Clone, Copy)]
pub struct Reader<'a> {
    pub table: &'a [u8],
    pub at: usize,
}

// The record at a place, judged; fine: the place after it.
pub fn record_at(table: &[u8], at: usize) -> Result<usize, Refusal>
    ensures { result ≡ record_of table.now at }
{
    if at == records::front(table) {
        return rules::conditions_record(table, at);
    }
    if at == 0 {
        return rules::rule_record(table);
    }
    if table::is_event(table, at) {
        if at < table::offset(table, 256) {
            event_rules::event_record(table, at)
        } else {
            refusal::refused(6, at)
        }
    } else {
        rules::marking_record(table, at)
    }
}

// The place after the record at a place; a refused record is not moved past.
pub fn next_at(table: &[u8], at: usize) -> usize
    ensures { result ≡ next_of table.now at }
{
    let r = record_at(table, at);
    let Ok(next) = r else {
        return at;
    };
    next
}

// A reader at the first record of a table.
pub fn over<'a>(table: &'a [u8]) -> Reader<'a>
    ensures { (result.table ≡ table.entry) × (result.at ≡ 0) }
{
    Reader { table, at: 0 }
}

// The place where a reader stands.
pub fn place<'a>(r: Reader<'a>) -> usize
    ensures { result ≡ r.entry.at }
{
    r.at
}

// The record at a reader's place, judged; fine: the place after it.
pub fn record<'a>(r: Reader<'a>) -> Result<usize, Refusal>
    ensures { result ≡ record_of r.entry.table.now r.entry.at }
{
    record_at(r.table, r.at)
}

// The reader at the next record, or where it stands if the record there is refused.
pub fn moved<'a>(r: Reader<'a>) -> Reader<'a>
    ensures { (result.table ≡ r.entry.table) × (result.at ≡ next_of r.entry.table.now r.entry.at) }
{
    Reader {
        table: r.table,
        at: next_at(r.table, r.at),
    }
}

// The second record of a table, by a reader moved once.
pub fn second(table: &[u8]) -> Result<usize, Refusal>
    ensures { result ≡ record_of table.now (next_of table.now 0) }
{
    record(moved(over(table)))
}

// The place of the second record of a table, by a reader moved once.
pub fn second_place(table: &[u8]) -> usize
    ensures { result ≡ next_of table.now 0 }
{
    place(moved(over(table)))
}
