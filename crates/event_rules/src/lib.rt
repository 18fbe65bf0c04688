// The rules of an Event record, with their refusals.
#![tactic(auto)]

ghost use Rattle.std.specs.Prelude.{◌≡◌, ◌+◌, ◌≤◌, length};
ghost use Rattle.event_rules.specs.EventRules.{lists_of, event_of};

use records::Header;
use refusal::Refusal;

// The lists of the Event record at an offset, each walked once unless there are preconditions enough to count; fine: next.
fn event_lists(s: &[u8], at: usize, next: usize) -> Result<usize, Refusal>
    requires { at + 8 ≤ length s.now }
    ensures { result ≡ lists_of s.now at next }
{
    let n = records::conditions(s) as usize;
    let a = words::word(s, at + 4) as usize;
    let z = words::word(s, at + 6) as usize;
    let pre = records::part_of(s, at + 8, 2 * a);
    if !words::ascends(pre, n) {
        return refusal::refused(5, at);
    }
    if !words::ascends(records::part_of(s, at + 8 + 2 * a, 2 * z), n) {
        return refusal::refused(5, at);
    }
    if a + z < 1 {
        return refusal::refused(7, at);
    }
    if a <= 16 {
        return Ok(next);
    }
    let held = words::count_in(records::flags(s), pre);
    if 16 < held {
        return refusal::refused(8, at);
    }
    Ok(next)
}

// The Event record at an offset; fine: the offset after it.
pub fn event_record(s: &[u8], at: usize) -> Result<usize, Refusal>
    ensures { result ≡ event_of s.now at }
{
    let Some(Header { kind, len }) = records::header_at(s, at) else {
        return refusal::refused(1, at);
    };
    if kind != 2 {
        return refusal::refused(2, at);
    }
    if len < 4 {
        return refusal::refused(3, at);
    }
    let a = words::word(s, at + 4) as usize;
    let z = words::word(s, at + 6) as usize;
    if len != 4 + 2 * (a + z) {
        return refusal::refused(3, at);
    }
    event_lists(s, at, at + 4 + len)
}
