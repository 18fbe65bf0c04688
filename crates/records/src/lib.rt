// One record of a table: its header, and its lists as parts of the table.
#![tactic(auto)]

ghost use Rattle.std.specs.Prelude.{◌≡◌, ◌+◌, ◌*◌};
ghost use Rattle.records.specs.Records.{part, header_of, old_rule, front, conditions, flags, pre_count, pre_part, post_part, marking_part};
ghost use Rattle.records.specs.Parts.{Part, place_in};

// The header of a record whose payload is there whole.
#[derive(Clone, Copy)]
pub struct Header {
    pub kind: u16,
    pub len: usize,
}

// The part of s that has k bytes from a on, or as many as there are, with where it lies.
pub fn shown(s: &[u8], a: usize, k: usize) -> &[u8]
    ensures { Part result s.entry (place_in s.now a) (part s.now a k) }
{
    if s.len() < a {
        return &s[..0];
    }
    if k <= s.len() - a {
        &s[a..a + k]
    } else {
        &s[a..]
    }
}

// The same part, for callers that only read it.
pub fn part_of(s: &[u8], a: usize, k: usize) -> &[u8]
    ensures { result.now ≡ part s.now a k }
{
    shown(s, a, k)
}

// The header at an offset, where the payload is there whole.
pub fn header_at(s: &[u8], at: usize) -> Option<Header>
    ensures { result ≡ header_of s.now at }
{
    if s.len() <= at {
        return None;
    }
    let len = words::word(s, at) as usize;
    if s.len() - at < 4 + len {
        return None;
    }
    Some(Header {
        kind: words::word(s, at + 2),
        len,
    })
}

// Whether a table asks for the old rule, by its first record.
pub fn old_rule(s: &[u8]) -> bool
    ensures { result ≡ old_rule s.now }
{
    if words::word(s, 2) == 6 {
        return words::byte(s, 4) == 1;
    }
    false
}

// The offset of the Conditions record, before which a Rule record may stand.
pub fn front(s: &[u8]) -> usize
    ensures { result ≡ front s.now }
{
    if words::word(s, 2) == 6 {
        return 5;
    }
    0
}

// The number of conditions.
pub fn conditions(s: &[u8]) -> u16
    ensures { result ≡ conditions s.now }
{
    words::word(s, front(s))
}

// The conditions' bytes, 1 where the condition is persistent.
pub fn flags(s: &[u8]) -> &[u8]
    ensures { result.now ≡ flags s.now }
{
    part_of(s, front(s) + 4, conditions(s) as usize)
}

// The preconditions of the Event record at an offset, not copied: the bytes of s that hold them.
pub fn pre_at(s: &[u8], at: usize) -> &[u8]
    ensures { Part result s.entry (place_in s.now (at + 8)) (pre_part s.now at) }
{
    if s.len() <= at {
        return &s[..0];
    }
    let a = words::word(s, at + 4) as usize;
    shown(s, at + 8, 2 * a)
}

// The postconditions of the Event record at an offset, likewise.
pub fn post_at(s: &[u8], at: usize) -> &[u8]
    ensures { Part result s.entry (place_in s.now (at + 8 + 2 * pre_count s.now at)) (post_part s.now at) }
{
    if s.len() <= at {
        return &s[..0];
    }
    let a = words::word(s, at + 4) as usize;
    let z = words::word(s, at + 6) as usize;
    shown(s, at + 8 + 2 * a, 2 * z)
}

// The conditions of the Marking record at an offset, likewise.
pub fn marking_at(s: &[u8], at: usize) -> &[u8]
    ensures { Part result s.entry (place_in s.now (at + 4)) (marking_part s.now at) }
{
    if s.len() <= at {
        return &s[..0];
    }
    let len = words::word(s, at) as usize;
    shown(s, at + 4, len)
}
