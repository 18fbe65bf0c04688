// The text of a listing, written into lent bytes piece by piece: a piece is first put into too few bytes, which measures it.
#![tactic(auto)]

ghost use Rattle.std.specs.Prelude.{◌≡◌, [], ◌∷◌, ◌++◌, ◌+◌, ◌-◌, ◌*◌, ◌≤◌, ◌<◌, length};
ghost use Rattle.std.proofs.Math.Option.{some};
ghost use Rattle.model.specs.Lent.{marking};
ghost use Rattle.model.specs.Across.{most_unfolded};
ghost use Rattle.refusal.specs.Answer.{condition_of, written};
ghost use Rattle.runs.specs.Runs.{run_of};
ghost use Rattle.spelling.specs.Decimal.{decimal};
ghost use Rattle.spelling.specs.Puts.{farthest, Put};
ghost use Rattle.listing.specs.Text.{space, newline, commas, listed, holding, end_words, start_line, step_line, by_words, refused_line};
ghost use Rattle.listing.specs.Calls.{held_in, first_in, next_of, first_piece, text_of, piece_of, files_of};

use refusal::{Condition, Refusal};

// What can be written at once: the line of the start, of a step, or of a refusal; the begin of the line of the unfolded end; or
// more of a list from a condition on.
#[derive(Clone, Copy)]
pub enum Piece {
    Start,
    Step(usize, usize, usize),
    End,
    More(usize),
    Refused(usize, usize, Option<Condition>),
}

// The most bytes of a table's file.
const MOST_NET_BYTES: usize = 65536;

// The most bytes of a run's file.
const MOST_RUN_BYTES: usize = 8196;

// The most conditions that a marking has.
const MOST_CONDITIONS: usize = 65535;

// How many conditions a further piece of a list is taken from.
const PIECE_SIZE: usize = 128;

// One condition of a marking put at a place with a comma before it, if it holds.
fn put_held(out: &mut [u8], at: usize, state: &[u8], b: usize) -> usize
    requires { (b < length state.now) × (at + 21 ≤ farthest) }
    ensures { Put out.old at (commas (holding (marking state.now) b 1)) result out.new }
{
    if state[b] == 1 {
        let next = spelling::put(out, at, b',');
        return spelling::put_number(out, next, b);
    }
    at
}

// The conditions that hold in a part of a marking put at a place, with a comma before each.
fn put_more(out: &mut [u8], at: usize, state: &[u8], from: usize, upto: usize) -> usize
    requires { (upto ≤ length state.now) × (at + 21 * (upto - from) ≤ farthest) }
    ensures { Put out.old at (commas (holding (marking state.now) from (upto - from))) result out.new }
{
    let mut next = at;
    for b in from..upto {
        next = put_held(out, next, state, b);
    }
    next
}

// The lowest condition that holds in a marking, its length where none does: the list's further pieces begin after it.
pub fn first_held(marking: &[u8]) -> usize
    ensures { result ≡ first_in marking.now }
{
    let first = marking.iter().position(|byte| *byte == 1);
    first.unwrap_or(marking.len())
}

// Where the piece after the one from a condition on begins, the length of the marking after the last.
pub fn next_piece(marking: &[u8], from: usize) -> usize
    ensures { result ≡ next_of marking.now from }
{
    let conditions = marking.len();
    if from < conditions {
        if PIECE_SIZE < conditions - from {
            return from + PIECE_SIZE;
        }
    }
    conditions
}

// The first number of a list put at a place, or the dash of an empty one.
fn put_first(out: &mut [u8], at: usize, state: &[u8], first: usize) -> usize
    requires { (first ≡ first_in state.now) × (at + 20 ≤ farthest) }
    ensures { Put out.old at (first_piece (held_in state.now)) result out.new }
{
    if first < state.len() {
        return spelling::put_number(out, at, first);
    }
    spelling::put(out, at, b'-')
}

// A list of the conditions that hold in a marking put at a place, and the newline after it.
fn put_list(out: &mut [u8], at: usize, state: &[u8]) -> usize
    requires { (length state.now ≤ most_unfolded) × (at ≤ 100) }
    ensures { Put out.old at (listed (held_in state.now) ++ (newline ∷ [])) result out.new }
{
    let first = first_held(state);
    let next = put_first(out, at, state, first);
    let end = put_more(out, next, state, first + 1, state.len());
    spelling::put(out, end, b'\n')
}

// The line of the start.
fn put_start(out: &mut [u8], state: &[u8]) -> usize
    requires { length state.now ≤ most_unfolded }
    ensures { Put out.old 0 (start_line (held_in state.now)) result out.new }
{
    let next = spelling::put_text(out, 0, b"start ");
    put_list(out, next, state)
}

// A number and a space after it.
fn put_spaced(out: &mut [u8], at: usize, n: usize) -> usize
    requires { at + 21 ≤ farthest }
    ensures { Put out.old at (decimal n ++ (space ∷ [])) result out.new }
{
    let next = spelling::put_number(out, at, n);
    spelling::put(out, next, b' ')
}

// The line of a step.
fn put_step(out: &mut [u8], step: usize, event: usize, unfolded: usize, state: &[u8]) -> usize
    requires { length state.now ≤ most_unfolded }
    ensures { Put out.old 0 (step_line step event unfolded (held_in state.now)) result out.new }
{
    let first = put_spaced(out, 0, step);
    let second = put_spaced(out, first, event);
    let third = put_spaced(out, second, unfolded);
    put_list(out, third, state)
}

// The begin of the line of the unfolded end.
fn put_end(out: &mut [u8], state: &[u8]) -> usize
    ensures { Put out.old 0 (end_words ++ first_piece (held_in state.now)) result out.new }
{
    let next = spelling::put_text(out, 0, b"end unfolded ");
    let first = first_held(state);
    put_first(out, next, state, first)
}

// The words for a condition that stopped a step, by its number.
fn put_condition(out: &mut [u8], at: usize, b: usize) -> usize
    requires { at + 24 ≤ farthest }
    ensures named { Put out.old at (by_words (some b)) result out.new }
    ensures near { result ≤ at + 24 }
{
    let from = spelling::put_text(out, at, b" by ");
    spelling::put_number(out, from, b)
}

// The words for what stopped a step, none where nothing did.
fn put_by(out: &mut [u8], at: usize, by: Option<Condition>) -> usize
    requires { at + 24 ≤ farthest }
    ensures named { Put out.old at (by_words (condition_of by)) result out.new }
    ensures near { result ≤ at + 24 }
{
    match by {
        None => at,
        Some(condition) => put_condition(out, at, condition.number() as usize),
    }
}

// The line of a refusal.
fn put_refused(out: &mut [u8], number: usize, place: usize, by: Option<Condition>) -> usize
    ensures { Put out.old 0 (refused_line number place (condition_of by)) result out.new }
{
    let first = spelling::put_text(out, 0, b"refused ");
    let second = spelling::put_number(out, first, number);
    let third = spelling::put_text(out, second, b" at ");
    let fourth = spelling::put_number(out, third, place);
    let end = put_by(out, fourth, by);
    spelling::put(out, end, b'\n')
}

// A piece put at the first byte.
fn put_piece(out: &mut [u8], piece: Piece, state: &[u8]) -> usize
    requires { length state.now ≤ most_unfolded }
    ensures { Put out.old 0 (text_of piece state.now) result out.new }
{
    match piece {
        Piece::Start => put_start(out, state),
        Piece::Step(step, event, unfolded) => put_step(out, step, event, unfolded, state),
        Piece::End => put_end(out, state),
        Piece::More(from) => put_more(out, 0, state, from, next_piece(state, from)),
        Piece::Refused(number, place, by) => put_refused(out, number, place, by),
    }
}

// A piece of the listing of a marking written to a lent output.
pub fn write(piece: Piece, marking: &[u8], out: &mut [u8]) -> Result<usize, Refusal>
    ensures answer { result ≡ piece_of piece marking.now (length out.old) }
    ensures after { out.new ≡ written result (text_of piece marking.now) out.old }
{
    if MOST_CONDITIONS < marking.len() {
        return refusal::refused(18, MOST_CONDITIONS);
    }
    let mut nothing = [0u8; 1];
    let needed = put_piece(&mut nothing, piece, marking);
    if out.len() < needed {
        return refusal::refused(16, needed);
    }
    put_piece(out, piece, marking);
    Ok(needed)
}

// The bytes of the two files judged in order, and the run read into a lent one; fine: the number of its steps.
pub fn read_files(net: &[u8], run: &[u8], steps: &mut [u16]) -> Result<usize, Refusal>
    ensures answer { result ≡ files_of net.now run.now (length steps.old) }
    ensures after { steps.new ≡ written result (run_of run.now) steps.old }
{
    if MOST_NET_BYTES < net.len() {
        return refusal::refused(19, 0);
    }
    table::judge(net)?;
    if MOST_RUN_BYTES < run.len() {
        return refusal::refused(19, 0);
    }
    runs::read_run(run, steps)
}
