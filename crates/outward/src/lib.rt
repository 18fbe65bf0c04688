// What C sees: an answer by value, single values written only where the call worked, and markers as numbers.
#![tactic(auto)]

ghost use Rattle.std.specs.Prelude.{◌≡◌, ◌<◌, length, get_or};
ghost use Rattle.refusal.specs.Answer.{fitting, value_of, written};
ghost use Rattle.unfolding.specs.Markers.{meant};
ghost use Rattle.events.specs.Answers.{origin_event};
ghost use Rattle.events.specs.Colours.{marker_at};
ghost use Rattle.outward.specs.Told.{by_number, answer_of, value_or, given};
ghost use Rattle.outward.specs.Origins.{condition_or, copy_or, marker_or, user_or};
ghost use Rattle.outward.specs.Words.{start_word, word_of, marker_of, colour_for, words_of, markers_of, markers_into, condition_for};

use conditions::ConditionOrigin;
use events::{Colour, EventOrigin};
use refusal::{Condition, Marker, Refusal, TableCondition, TableEvent};

// The number that stands for the start.
const START: u32 = 0xFFFFFFFF;

// An answer as C sees it: 0, 0 and 0 where the call worked, else a refusal with the condition that stopped a step.
#[repr(C)]
#[derive(Clone, Copy)]
pub struct Answer {
    pub number: u64,
    pub place: u64,
    pub by: u64,
}

// The number of the condition that stopped a step, 0 where none did.
fn by_number(by: Option<Condition>) -> u64
    ensures { result ≡ by_number by }
{
    match by {
        None => 0,
        Some(condition) => condition.number() as u64,
    }
}

// An answer told to C.
#[tactic(auto, unfolding(crate::specs::Told::answer_of))]
pub fn told<T: Copy>(answer: Result<T, Refusal>) -> Answer
    ensures { result ≡ answer_of answer }
{
    match answer {
        Ok(_) => Answer {
            number: 0,
            place: 0,
            by: 0,
        },
        Err(refusal) => Answer {
            number: refusal.number as u64,
            place: refusal.place as u64,
            by: by_number(refusal.by),
        },
    }
}

// The value of an answer, put where the call worked.
#[tactic(auto, unfolding(crate::specs::Told::value_or))]
pub fn put_value(judged: Result<usize, Refusal>, value: &mut u64)
    ensures { value.new ≡ value_or judged value.old }
{
    if let Ok(found) = judged {
        *value = found as u64;
    }
}

// The value of an answer that is a number of two bytes, likewise.
#[tactic(auto, unfolding(crate::specs::Told::value_or))]
pub fn put_number(judged: Result<usize, Refusal>, number: &mut u16)
    requires { value_of judged < 65536 }
    ensures { number.new ≡ value_or judged number.old }
{
    if let Ok(found) = judged {
        *number = found as u16;
    }
}

// The marker that a number says.
#[tactic(auto, unfolding(crate::specs::Words::marker_of))]
pub fn marker_of(word: u32) -> Marker
    ensures { result ≡ marker_of word }
{
    if word == START {
        return Marker::Start;
    }
    if word < 65536 {
        return Marker::ByEvent(TableEvent(word as u16));
    }
    Marker::ByEvent(TableEvent(65535))
}

// A marker as a number.
pub fn word_of(marker: Marker) -> u32
    ensures { result ≡ word_of (meant marker) }
{
    match marker {
        Marker::Start => START,
        Marker::ByEvent(e) => e.0 as u32,
    }
}

// The number at a place of a list, and the one for the start past its end.
#[tactic(auto, using(crate::proofs::Markers::read_with))]
fn word_at(words: &[u32], i: usize) -> u32
    ensures { result ≡ get_or words.now i start_word }
{
    if i < words.len() { words[i] } else { START }
}

// The colour that numbers say.
pub fn colour_of(words: &[u32]) -> Colour
    ensures { result ≡ colour_for words.now }
{
    let mut picks = [Marker::Start; 16];
    let mut i: usize = 0;
    while i < 16 {
        let m = marker_of(word_at(words, i));
        picks[i] = m;
        i = i + 1;
    }
    Colour {
        count: words.len(),
        picks,
    }
}

// The marker at a place of a colour, the start past its sixteen places.
fn marker_at(colour: Colour, i: usize) -> Marker
    ensures { meant result ≡ marker_at colour i }
{
    if i < 16 {
        return colour.picks[i];
    }
    Marker::Start
}

// The markers of a colour over the first numbers of a lent output, where it has room.
fn write_markers(colour: Colour, out: &mut [u32]) -> Result<usize, Refusal>
    ensures answer { result ≡ fitting colour.count (length out.old) }
    ensures after { out.new ≡ written result (words_of colour) out.old }
{
    let count = colour.count;
    if out.len() < count {
        return refusal::refused(16, count);
    }
    let mut i: usize = 0;
    while i < count {
        out[i] = word_of(marker_at(colour, i));
        i = i + 1;
    }
    Ok(count)
}

// The event and the markers behind an unfolded event, put where there is one and the lent output has room; fine: how many markers.
#[tactic(auto, unfolding(crate::specs::Told::value_or, crate::specs::Told::given, crate::specs::Words::markers_of, crate::specs::Words::markers_into))]
pub fn put_event_origin(
    origin: Result<EventOrigin, Refusal>,
    markers: &mut [u32],
    event: &mut u16,
    count: &mut u64,
) -> Result<usize, Refusal>
    ensures answer { result ≡ markers_of origin (length markers.old) }
    ensures after { markers.new ≡ markers_into origin markers.old }
    ensures behind { event.new ≡ given result (origin_event origin) event.old }
    ensures many { count.new ≡ value_or result count.old }
{
    let found = origin?;
    let many = write_markers(found.colour, markers)?;
    *event = found.event.0;
    *count = many as u64;
    Ok(many)
}

// The number for an ordinary condition, or for a copy of a persistent one.
#[tactic(auto, unfolding(crate::specs::Words::condition_for))]
pub fn condition_number(
    table: &[u8],
    b: TableCondition,
    copy: bool,
    marker: u32,
    user: TableEvent,
) -> Result<usize, Refusal>
    ensures { result ≡ condition_for table.now b.0 copy marker user.0 }
{
    if copy {
        return condition_numbers::copy_number(table, b, marker_of(marker), user);
    }
    condition_numbers::ordinary_number(table, b)
}

// The condition behind an unfolded one and whether that is a copy, put where there is one; of a copy its marker and its user too.
pub fn put_condition_origin(
    origin: Result<ConditionOrigin, Refusal>,
    condition: &mut u16,
    copy: &mut bool,
    marker: &mut u32,
    user: &mut u16,
)
    ensures behind { condition.new ≡ condition_or origin condition.old }
    ensures copied { copy.new ≡ copy_or origin copy.old }
    ensures marked { marker.new ≡ marker_or origin marker.old }
    ensures used { user.new ≡ user_or origin user.old }
{
    match origin {
        Ok(ConditionOrigin::Ordinary(b)) => {
            *condition = b.0;
            *copy = false;
        }
        Ok(ConditionOrigin::Copy(b, m, u)) => {
            *condition = b.0;
            *copy = true;
            *marker = word_of(m);
            *user = u.0;
        }
        Err(_) => {}
    }
}
