// The numbers of two bytes in a slice of bytes, one after the other.
ghost use Rattle.std.specs.Iterator.{YieldsFirst, item_count};
ghost use Rattle.words.specs.Numbers.{numbers_left};

// The bytes that are left: their numbers are still to come, and a last odd byte is no number.
#[derive(Drop)]
pub struct Numbers<'a> {
    pub(crate) bytes: &'a [u8],
}

impl<'a> Iterator for Numbers<'a> {
    type Item = u16;

    ghost next_gives = { YieldsFirst numbers_left };

    ghost remaining = { item_count numbers_left };

    fn next(&mut self) -> Option<u16> {
        let [low, high, rest @ ..] = self.bytes else {
            return None;
        };
        self.bytes = rest;
        Some(u16::from_le_bytes([*low, *high]))
    }
}
