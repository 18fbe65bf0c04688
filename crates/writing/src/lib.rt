// Run and Lifted records written into lent bytes, from which they are read again as the runs that they hold.
#![tactic(auto)]

ghost use Rattle.std.specs.Prelude.{◌≡◌, [], ◌∷◌, ◌+◌, ◌*◌, ◌≤◌, length};
ghost use Rattle.std.proofs.lemmas.List.Edits.{sets};
ghost use Rattle.words.specs.Words.{bytes_of};
ghost use Rattle.runs.specs.Runs.{run_kind, lifted_kind};
ghost use Rattle.writing.specs.Writing.{write_answer, record_into};

use refusal::{Refusal, refused};
use runs::{LIFTED, RUN};

// A number stored as its two bytes.
fn put_word(bytes: &mut [u8], at: usize, word: u16)
    requires { at + 2 ≤ length bytes.old }
    ensures { bytes.new ≡ sets bytes.old at (bytes_of (word ∷ [])) }
{
    bytes[at] = (word % 256) as u8;
    bytes[at + 1] = (word / 256) as u8;
}

// The steps of a run stored as the payload of a record.
fn put_steps(run: &[u16], bytes: &mut [u8])
    requires { 4 + 2 * length run.now ≤ length bytes.old }
    ensures { bytes.new ≡ sets bytes.old 4 (bytes_of run.now) }
{
    for (k, step) in run.iter().enumerate() {
        put_word(bytes, 4 + 2 * k, *step);
    }
}

// A record of the kind that holds a run of at most 4,096 steps (3), written into lent bytes that must have room for it (16).
fn write_record(run: &[u16], kind: u16, bytes: &mut [u8]) -> Result<usize, Refusal>
    ensures answer { result ≡ write_answer run.now (length bytes.old) }
    ensures lent { bytes.new ≡ record_into kind run.now bytes.old }
{
    let steps = run.len();
    if refusal::MOST_STEPS < steps {
        return refused(3, 0);
    }
    let needed = 4 + 2 * steps;
    if bytes.len() < needed {
        return refused(16, needed);
    }
    put_word(bytes, 0, (2 * steps) as u16);
    put_word(bytes, 2, kind);
    put_steps(run, bytes);
    Ok(needed)
}

// A run written as a Run record: the number of its bytes, which stand from the first on.
pub fn write_run(run: &[u16], bytes: &mut [u8]) -> Result<usize, Refusal>
    ensures answer { result ≡ write_answer run.now (length bytes.old) }
    ensures lent { bytes.new ≡ record_into run_kind run.now bytes.old }
{
    write_record(run, RUN, bytes)
}

// A lifted run written as a Lifted record: the number of its bytes, which stand from the first on.
pub fn write_lifted(lifted: &[u16], bytes: &mut [u8]) -> Result<usize, Refusal>
    ensures answer { result ≡ write_answer lifted.now (length bytes.old) }
    ensures lent { bytes.new ≡ record_into lifted_kind lifted.now bytes.old }
{
    write_record(lifted, LIFTED, bytes)
}
