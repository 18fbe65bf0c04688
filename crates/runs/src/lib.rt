// Run and Lifted records, read into a lent run; no table is needed.
#![tactic(auto)]

ghost use Rattle.std.specs.Prelude.{◌≡◌, length};
ghost use Rattle.runs.specs.Runs.{run_kind, lifted_kind, steps_in, read_answer, run_into};

use records::Header;
use refusal::{Refusal, refused};

// The kind of a Run record.
pub const RUN: u16 = 4;

// The kind of a Lifted record.
pub const LIFTED: u16 = 5;

// How many steps an input has that must be one record of the kind and nothing more, or its refusal (1, 2, 3, 9).
fn steps_in(bytes: &[u8], kind: u16) -> Result<usize, Refusal>
    ensures { result ≡ steps_in kind bytes.now }
{
    let Some(Header { kind: found, len }) = records::header_at(bytes, 0) else {
        return refused(1, 0);
    };
    if found != kind {
        return refused(2, 0);
    }
    if len % 2 != 0 {
        return refused(3, 0);
    }
    if refusal::MOST_STEPS < len / 2 {
        return refused(3, 0);
    }
    if 4 + len < bytes.len() {
        return refused(9, 4 + len);
    }
    Ok(len / 2)
}

// The steps of a record of the kind, written into a lent run that must have room for them (16).
fn read_record(bytes: &[u8], kind: u16, run: &mut [u16]) -> Result<usize, Refusal>
    ensures answer { result ≡ read_answer kind bytes.now (length run.old) }
    ensures lent { run.new ≡ run_into kind bytes.now run.old }
{
    let steps = steps_in(bytes, kind)?;
    if run.len() < steps {
        return refused(16, steps);
    }
    for (k, step) in run[..steps].iter_mut().enumerate() {
        *step = words::word(bytes, 4 + 2 * k);
    }
    Ok(steps)
}

// A Run record read: the number of its steps, which stand from the run's first element on.
pub fn read_run(bytes: &[u8], run: &mut [u16]) -> Result<usize, Refusal>
    ensures answer { result ≡ read_answer run_kind bytes.now (length run.old) }
    ensures lent { run.new ≡ run_into run_kind bytes.now run.old }
{
    read_record(bytes, RUN, run)
}

// A Lifted record read: the number of its steps, which stand from the lifted run's first element on.
pub fn read_lifted(bytes: &[u8], lifted: &mut [u16]) -> Result<usize, Refusal>
    ensures answer { result ≡ read_answer lifted_kind bytes.now (length lifted.old) }
    ensures lent { lifted.new ≡ run_into lifted_kind bytes.now lifted.old }
{
    read_record(bytes, LIFTED, lifted)
}
