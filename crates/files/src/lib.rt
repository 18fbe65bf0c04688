// What the programs that work on files share: a file read as far as there is room for it, and the line of a refusal written out.
#![tactic(auto)]

ghost use Rattle.filling.specs.Counts.{IsPrefixLen};

use refusal::Refusal;
use std::rt::Files;
use std::{fs, io};

// A file opened for reading; none where it cannot be, as where the path is not UTF-8, of which std opens none.
fn open<R: Files>(rt: &R, path: &[u8]) -> Option<R::File> {
    let path = str::from_utf8(path).ok()?;
    fs::open(rt, path).ok()
}

// A file read into a buffer, as far as there is room; one that cannot be opened or read is empty.
pub fn read_file(rt: &impl Files, path: &[u8], buffer: &mut [u8]) -> usize
    ensures { IsPrefixLen result buffer.new }
{
    let Some(mut file) = open(rt, path) else {
        return 0;
    };
    filling::read_full(&mut file, buffer)
}

// The line of a refusal written out.
pub fn refuse(rt: &impl Print, answer: Result<usize, Refusal>) -> io::Result<()> {
    let mut text = [0u8; 2048];
    let count = lines::write_refused(answer, &mut text);
    rt.write_all(&text[0..count])
}
