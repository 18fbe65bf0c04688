// A marking in four words of 64 bits, one for each condition: gathered from lent bytes or from a list, read, put together, and written
// to lent bytes.
#![tactic(auto)]

ghost use Rattle.std.specs.Prelude.{◌≡◌, not, ◌&&◌, ◌||◌, ◌++◌, ◌≤◌, length, take, drop};
ghost use Rattle.lists.specs.Lists.{mem};
ghost use Rattle.words.specs.Words.{words};
ghost use Rattle.model.specs.Lent.{bit, bytes, marking};
ghost use Rattle.held.specs.Held.{held_in, tabled, Tells};

// Whether a condition holds: its bit of its word, and no where it has none.
pub fn holds(held: [u64; 4], b: usize) -> bool
    ensures { result ≡ held_in held b }
{
    let place = b / 64;
    if place < 4 {
        return (held[place] >> (b as u64 % 64)) % 2 == 1;
    }
    false
}

// The conditions of both.
pub fn both(one: [u64; 4], other: [u64; 4]) -> [u64; 4]
    ensures { held_in result ≡ (λ b. held_in one b && held_in other b) }
{
    [
        one[0] & other[0],
        one[1] & other[1],
        one[2] & other[2],
        one[3] & other[3],
    ]
}

// The conditions of either.
pub fn either(one: [u64; 4], other: [u64; 4]) -> [u64; 4]
    ensures { held_in result ≡ (λ b. held_in one b || held_in other b) }
{
    [
        one[0] | other[0],
        one[1] | other[1],
        one[2] | other[2],
        one[3] | other[3],
    ]
}

// The conditions of one that are none of the other.
pub fn without(one: [u64; 4], other: [u64; 4]) -> [u64; 4]
    ensures { held_in result ≡ (λ b. held_in one b && not (held_in other b)) }
{
    [
        one[0] ^ (one[0] & other[0]),
        one[1] ^ (one[1] & other[1]),
        one[2] ^ (one[2] & other[2]),
        one[3] ^ (one[3] & other[3]),
    ]
}

// The conditions of a list.
pub fn collect(list: &[u8]) -> [u64; 4]
    ensures { held_in result ≡ tabled (λ b. mem b (words list.now)) }
{
    let mut held = [0u64; 4];
    for b in words::numbers(list) {
        let place = usize::from(b / 64);
        if place < 4 {
            held[place] |= 1 << (b % 64);
        }
    }
    held
}

// The 64 bytes from one on, as many of them as there are.
fn bytes_from(state: &[u8], from: usize) -> &[u8]
    ensures { result.now ≡ take 64 (drop from state.now) }
{
    let rest = &state[from.min(state.len())..];
    &rest[..rest.len().min(64)]
}

// The word of the 64 conditions from one on, by lent bytes; what has no byte does not hold.
fn word_from(state: &[u8], from: usize) -> u64
    ensures { Tells (marking state.now) from result }
{
    let mut word: u64 = 0;
    for (j, byte) in bytes_from(state, from).iter().enumerate() {
        if *byte == 1 {
            word |= 1 << j;
        }
    }
    word
}

// The marking that is lent in bytes.
pub fn gather(state: &[u8]) -> [u64; 4]
    ensures { held_in result ≡ tabled (marking state.now) }
{
    [
        word_from(state, 0),
        word_from(state, 64),
        word_from(state, 128),
        word_from(state, 192),
    ]
}

// A condition as a byte.
fn byte_of(held: [u64; 4], b: usize) -> u8
    ensures { result ≡ bit (held_in held b) }
{
    if holds(held, b) { 1 } else { 0 }
}

// A marking over the first bytes of a lent output.
pub fn spread(held: [u64; 4], count: usize, out: &mut [u8])
    requires { count ≤ length out.old }
    ensures { out.new ≡ bytes count (held_in held) ++ drop count out.old }
{
    for (b, byte) in out[..count].iter_mut().enumerate() {
        *byte = byte_of(held, b);
    }
}
