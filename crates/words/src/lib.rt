// Numbers of two bytes in a slice of bytes, and the tests on a list of them; past the end all is 0, so that no caller has to ask first.
#![tactic(auto)]

ghost use Rattle.std.specs.Prelude.{◌≡◌, ◌+◌, ◌<◌, ◌^◌, length, get_or};
ghost use Rattle.lists.specs.Lists.{mem, fits};
ghost use Rattle.words.specs.Words.{word_at, words, bits, count_in};
ghost use Rattle.words.specs.Numbers.{numbers_left};

pub mod iter;

use iter::Numbers;

// The byte at i, and 0 past the end.
pub fn byte(s: &[u8], i: usize) -> u8
    ensures { result ≡ get_or s.now i 0 }
{
    if i < s.len() { s[i] } else { 0 }
}

// The number of two bytes at i, a byte past the end counting as 0.
pub fn word(s: &[u8], i: usize) -> u16
    ensures { result ≡ word_at s.now i }
{
    if i < s.len() {
        byte(s, i) as u16 + 256 * (byte(s, i + 1) as u16)
    } else {
        0
    }
}

// The number of two bytes at i, both of which are there: what the loops read, with no test of the end.
pub fn word_within(s: &[u8], i: usize) -> u16
    requires { i + 1 < length s.now }
    ensures { result ≡ word_at s.now i }
{
    s[i] as u16 + 256 * (s[i + 1] as u16)
}

// The numbers in s, one after the other.
pub fn numbers(s: &[u8]) -> Numbers<'_>
    ensures left { numbers_left result ≡ words s.now }
    ensures bound { length (numbers_left result) < 2 ^ 64 }
{
    Numbers { bytes: s }
}

// Whether a number is in s: its two bytes are looked for among the pairs of bytes, many pairs at a time.
pub fn has(s: &[u8], number: usize) -> bool
    ensures { result ≡ mem number (words s.now) }
{
    match u16::try_from(number) {
        Ok(number) => s.as_chunks::<2>().0.contains(&number.to_le_bytes()),
        Err(_) => false,
    }
}

// Whether the numbers in s ascend, the last below n.
pub fn ascends(s: &[u8], n: usize) -> bool
    ensures { result ≡ fits n (words s.now) }
{
    let mut least: usize = 0;
    for w in numbers(s) {
        let w = usize::from(w);
        if w < least {
            return false;
        }
        least = w + 1;
    }
    least <= n
}

// Whether each byte is 0 or 1.
pub fn all_bits(s: &[u8]) -> bool
    ensures { result ≡ bits s.now }
{
    s.iter().all(|b| *b <= 1)
}

// How many of the numbers in s have a byte 1 in flags.
pub fn count_in<'a>(flags: &'a [u8], s: &'a [u8]) -> usize
    ensures { result ≡ count_in flags.now (words s.now) }
{
    numbers(s)
        .filter(|w| byte(flags, usize::from(*w)) == 1)
        .count()
}
