// A listing to its last byte, once its two files are opened: its text is written piece by piece.
#![tactic(auto)]

ghost use Rattle.std.specs.Prelude.{◌≡◌, [], ◌∷◌, ◌≤◌, ◌<◌, length, get_or};
ghost use Rattle.model.specs.Across.{most_unfolded};
ghost use Rattle.spelling.specs.Puts.{Puts};
ghost use Rattle.table.specs.Decoded.{net_of};
ghost use Rattle.refusal.specs.Answer.{number_of, place_of, by_of, condition_of};
ghost use Rattle.listing.specs.Text.{newline, refused_line};
ghost use Rattle.listing.specs.Calls.{text_of};
ghost use Rattle.lines.specs.Places.{step_from, more_from, next_at, goes_on, fired, shown_at, step_text, text_at, written_at};
ghost use Rattle.lines.specs.Needs.{most_bytes, InRun, Steady, Ready};

use listing::Piece;
use refusal::Refusal;

// Where a listing stands: at the start's line, at the line of a step, at the begin of the unfolded end's line, at more of its list
// from a condition on, at the newline after it, or past all.
#[derive(Clone, Copy)]
pub enum Place {
    Start,
    Step(usize),
    End,
    More(usize),
    Last,
    Over,
}

// How many bytes were written, and where the listing stands after them.
#[derive(Clone, Copy)]
pub struct Written {
    pub count: usize,
    pub next: Place,
}

// There is more to write.
pub fn goes_on(place: Place) -> bool
    ensures { result ≡ goes_on place }
{
    match place {
        Place::Start => true,
        Place::Step(_) => true,
        Place::End => true,
        Place::More(_) => true,
        Place::Last => true,
        Place::Over => false,
    }
}

// The place of a step, or of the unfolded end where the run has no such step.
fn step_from(steps: usize, k: usize) -> Place
    ensures { result ≡ step_from steps k }
{
    if k < steps {
        return Place::Step(k);
    }
    Place::End
}

// The place of more of a list, or of the newline where no condition is left.
fn more_from(conditions: usize, from: usize) -> Place
    ensures { result ≡ more_from conditions from }
{
    if from < conditions {
        return Place::More(from);
    }
    Place::Last
}

// The place after one.
fn next_place(steps: usize, end: &[u8], place: Place) -> Place
    requires { (length end.now ≤ most_unfolded) × InRun steps place }
    ensures { result ≡ next_at steps end.now place }
{
    match place {
        Place::Start => step_from(steps, 0),
        Place::Step(k) => step_from(steps, k + 1),
        Place::End => more_from(end.len(), listing::first_held(end) + 1),
        Place::More(from) => more_from(end.len(), listing::next_piece(end, from)),
        Place::Last => Place::Over,
        Place::Over => Place::Over,
    }
}

// A piece written to an output that has room for it.
fn put(piece: Piece, state: &[u8], out: &mut [u8]) -> usize
    requires { (length state.now ≤ most_unfolded) × (length (text_of piece state.now) ≤ length out.old) }
    ensures { Puts (text_of piece state.now) out.old result out.new }
{
    refusal::value_of(listing::write(piece, state, out))
}

// The newline written to an output that has room for it.
fn put_newline(out: &mut [u8]) -> usize
    requires { 0 < length out.old }
    ensures { Puts (newline ∷ []) out.old result out.new }
{
    out[0] = b'\n';
    1
}

// The number at a place of a run.
fn number_at(run: &[u16], k: usize) -> u16
    requires { k < length run.now }
    ensures { result ≡ get_or run.now k 0 }
{
    run[k]
}

// A step fired over the marking, and its line written.
fn write_step<'a>(
    table: &'a [u8],
    events: usize,
    offsets: &'a [usize],
    steps: &'a [u16],
    lifted: &'a [u16],
    k: usize,
    marking: &mut [u8],
    out: &mut [u8],
) -> usize
    requires { Steady table.now events offsets.now steps.now lifted.now marking.old × (k < length steps.now) × (most_bytes ≤ length out.old) }
    ensures moved { marking.new ≡ fired (net_of table.now) marking.old (get_or steps.now k 0) }
    ensures wrote { Puts (step_text steps.now lifted.now marking.new k) out.old result out.new }
{
    let event = number_at(steps, k);
    let unfolded = number_at(lifted, k);
    // What is stopped leaves the marking as it was, and its line is written all the same.
    let _ = played::step_event(table, events, offsets, event, marking);
    put(
        Piece::Step(k, event as usize, unfolded as usize),
        &marking[..],
        out,
    )
}

// What stands at a place written to an output that has room for it, a step fired first.
fn write_at<'a>(
    table: &'a [u8],
    events: usize,
    offsets: &'a [usize],
    steps: &'a [u16],
    lifted: &'a [u16],
    end: &'a [u8],
    place: Place,
    marking: &mut [u8],
    out: &mut [u8],
) -> usize
    requires { Ready table.now events offsets.now steps.now lifted.now end.now marking.old place × (most_bytes ≤ length out.old) }
    ensures moved { marking.new ≡ shown_at (net_of table.now) steps.now marking.old place }
    ensures wrote { Puts (text_at steps.now lifted.now end.now marking.new place) out.old result out.new }
{
    match place {
        Place::Start => put(Piece::Start, &marking[..], out),
        Place::Step(k) => write_step(table, events, offsets, steps, lifted, k, marking, out),
        Place::End => put(Piece::End, end, out),
        Place::More(from) => put(Piece::More(from), end, out),
        Place::Last => put_newline(out),
        Place::Over => 0,
    }
}

// The text at a place of a listing, with the place after it; the marking is moved on where the place is a step.
pub fn write<'a>(
    table: &'a [u8],
    events: usize,
    offsets: &'a [usize],
    steps: &'a [u16],
    lifted: &'a [u16],
    end: &'a [u8],
    place: Place,
    marking: &mut [u8],
    out: &mut [u8],
) -> Written
    requires { Ready table.now events offsets.now steps.now lifted.now end.now marking.old place × (most_bytes ≤ length out.old) }
    ensures moved { marking.new ≡ shown_at (net_of table.now) steps.now marking.old place }
    ensures answer { result ≡ written_at steps.now lifted.now end.now marking.new place }
    ensures wrote { Puts (text_at steps.now lifted.now end.now marking.new place) out.old result.count out.new }
{
    let count = write_at(
        table, events, offsets, steps, lifted, end, place, marking, out,
    );
    let next = next_place(steps.len(), end, place);
    Written { count, next }
}

// The line of a refusal written to an output that has room for it.
pub fn write_refused(answer: Result<usize, Refusal>, out: &mut [u8]) -> usize
    requires { most_bytes ≤ length out.old }
    ensures { Puts (refused_line (number_of answer) (place_of answer) (condition_of (by_of answer))) out.old result out.new }
{
    let number = refusal::number_of(answer) as usize;
    let by = refusal::by_of(answer);
    put(
        Piece::Refused(number, refusal::place_of(answer), by),
        b"",
        out,
    )
}
