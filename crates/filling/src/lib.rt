// A buffer filled from a reader, as far as there is room and the reader gives bytes: what the programs that read files or standard input
// stand on.
#![tactic(auto)]

ghost use Rattle.std.specs.Prelude.{take};
ghost use Rattle.std.specs.Io.KnownBytes.{Consumes};
ghost use Rattle.filling.specs.Counts.{IsPrefixLen};

use std::io::Read;

// Reads until the buffer is full, the input ends or a read fails, and returns how many bytes stand at the start of the buffer; they are
// those that the reader no longer has.
pub fn read_full<R: Read>(reader: &mut R, buffer: &mut [u8]) -> usize
    ensures within { IsPrefixLen result buffer.new }
    ensures bytes { Consumes (R.remaining reader.old) (R.remaining reader.new) (take result buffer.new) }
{
    let mut done = 0;
    while done < buffer.len() {
        match reader.read(&mut buffer[done..]) {
            Ok(0) => break,
            Ok(n) => done += n,
            Err(_) => break,
        }
    }
    done
}
