// Bytes, numbers and texts put at a place of lent bytes: every place that these have no room for is left out, so that what is put into
// too few of them is measured.
#![tactic(auto)]

ghost use Rattle.std.specs.Prelude.{◌≡◌, [], ◌∷◌, ◌+◌, ◌/◌, ◌%◌, ◌≤◌, ◌<◌, length};
ghost use Rattle.spelling.specs.Decimal.{decimal};
ghost use Rattle.spelling.specs.Puts.{farthest, Put};

// One byte put at a place.
pub fn put(out: &mut [u8], at: usize, byte: u8) -> usize
    requires { at < farthest }
    ensures { Put out.old at (byte ∷ []) result out.new }
{
    if out.len() <= at {
        return at + 1;
    }
    out[at] = byte;
    at + 1
}

// The two digits of a number below 100 put at a place, a 0 before one digit.
fn put_two(out: &mut [u8], at: usize, n: usize) -> usize
    requires { (at + 2 ≤ farthest) × (n < 100) }
    ensures { Put out.old at ((48 + n / 10) ∷ (48 + n % 10) ∷ []) result out.new }
{
    let last = put(out, at, b'0' + (n / 10) as u8);
    put(out, last, b'0' + (n % 10) as u8)
}

// A number put at a place, its last two digits after those of its hundredth; below 1,000, as most numbers are, with no call of itself.
pub fn put_number(out: &mut [u8], at: usize, n: usize) -> usize
    requires { at + 20 ≤ farthest }
    ensures { Put out.old at (decimal n) result out.new }
{
    if n < 10 {
        return put(out, at, b'0' + n as u8);
    }
    if n < 100 {
        return put_two(out, at, n);
    }
    if n < 1000 {
        let end = put(out, at, b'0' + (n / 100) as u8);
        return put_two(out, end, n % 100);
    }
    let end = put_number(out, at, n / 100);
    put_two(out, end, n % 100)
}

// Bytes put at a place.
pub fn put_text(out: &mut [u8], at: usize, text: &[u8]) -> usize
    requires { at + length text.now ≤ farthest }
    ensures { Put out.old at text.now result out.new }
{
    for (k, byte) in text.iter().enumerate() {
        put(out, at + k, *byte);
    }
    at + text.len()
}
