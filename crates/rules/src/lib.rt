// The rules of the first records and of the last one of a table, with their refusals.
#![tactic(auto)]

ghost use Rattle.std.specs.Prelude.{◌≡◌};
ghost use Rattle.rules.specs.Rules.{rule_of, conditions_of, marking_of};

use records::Header;
use refusal::Refusal;

// The Rule record, where one stands first; fine: the offset after it, which is 0 where there is none.
pub fn rule_record(s: &[u8]) -> Result<usize, Refusal>
    ensures { result ≡ rule_of s.now }
{
    if words::word(s, 2) != 6 {
        return Ok(0);
    }
    let Some(Header { kind: _, len }) = records::header_at(s, 0) else {
        return refusal::refused(1, 0);
    };
    if len != 1 {
        return refusal::refused(3, 0);
    }
    if 1 < words::byte(s, 4) {
        return refusal::refused(4, 0);
    }
    Ok(5)
}

// The Conditions record at an offset; fine: the offset after it.
pub fn conditions_record(s: &[u8], at: usize) -> Result<usize, Refusal>
    ensures { result ≡ conditions_of s.now at }
{
    let Some(Header { kind, len }) = records::header_at(s, at) else {
        return refusal::refused(1, at);
    };
    if kind != 1 {
        return refusal::refused(2, at);
    }
    if len < 1 {
        return refusal::refused(3, at);
    }
    if 256 < len {
        return refusal::refused(3, at);
    }
    if words::all_bits(records::part_of(s, at + 4, len)) {
        Ok(at + 4 + len)
    } else {
        refusal::refused(4, at)
    }
}

// The Marking record at an offset, after which nothing may stand; fine: the offset after it.
pub fn marking_record(s: &[u8], at: usize) -> Result<usize, Refusal>
    ensures { result ≡ marking_of s.now at }
{
    let Some(Header { kind, len }) = records::header_at(s, at) else {
        return refusal::refused(1, at);
    };
    if kind != 3 {
        return refusal::refused(2, at);
    }
    if len % 2 != 0 {
        return refusal::refused(3, at);
    }
    let n = records::conditions(s) as usize;
    if !words::ascends(records::part_of(s, at + 4, len), n) {
        return refusal::refused(5, at);
    }
    let next = at + 4 + len;
    if next < s.len() {
        return refusal::refused(9, next);
    }
    Ok(next)
}
