// The elements of an exported net as text, written into lent bytes one at a time: an element is first put into too few bytes, which
// measures it.
#![tactic(auto)]

ghost use Rattle.std.specs.Prelude.{◌≡◌, ◌++◌, ◌+◌, ◌≤◌, length};
ghost use Rattle.refusal.specs.Answer.{fitting, written};
ghost use Rattle.spelling.specs.Decimal.{decimal};
ghost use Rattle.spelling.specs.Puts.{farthest, Put};
ghost use Rattle.pnml.specs.declared.Element.TheVariants.{Opens, Place, Transition, Arc};
ghost use Rattle.pnml.specs.Text.{arc_begins, place_name, transition_name, place_ends, source_name, target_name, text_of};

use refusal::Refusal;

// What an arc joins: a place into a transition, or a transition's way out to a place.
#[derive(Clone, Copy)]
pub enum Link {
    Into(usize, usize),
    OutOf(usize, usize),
}

// An element of an exported net: all that opens; a place, with or without a token; a transition; an arc by its number; all that closes.
#[derive(Clone, Copy)]
pub enum Element {
    Opens,
    Place(usize, bool),
    Transition(usize),
    Arc(usize, Link),
    Closes,
}

// The id of a place put from a byte on.
fn put_place_name(out: &mut [u8], at: usize, conditions: usize, x: usize) -> usize
    requires { at + 21 ≤ farthest }
    ensures named { Put out.old at (place_name conditions x) result out.new }
    ensures near { result ≤ at + 21 }
{
    if x < conditions {
        let next = spelling::put(out, at, b'p');
        return spelling::put_number(out, next, x);
    }
    let next = spelling::put(out, at, b'q');
    spelling::put_number(out, next, x - conditions)
}

// The id of a transition put from a byte on.
fn put_transition_name(out: &mut [u8], at: usize, t: usize) -> usize
    requires { at + 21 ≤ farthest }
    ensures named { Put out.old at (transition_name t) result out.new }
    ensures near { result ≤ at + 21 }
{
    let next = spelling::put(out, at, b't');
    spelling::put_number(out, next, t)
}

// What follows the id of a place, by whether it holds a token.
fn put_place_end(out: &mut [u8], at: usize, held: bool) -> usize
    requires { at + 57 ≤ farthest }
    ensures { Put out.old at (place_ends held) result out.new }
{
    if held {
        return spelling::put_text(
            out,
            at,
            b"\"><initialMarking><text>1</text></initialMarking></place>",
        );
    }
    spelling::put_text(out, at, b"\"/>")
}

// A place put at the first byte.
fn put_place(out: &mut [u8], conditions: usize, x: usize, held: bool) -> usize
    ensures { Put out.old 0 (text_of conditions (Place x held)) result out.new }
{
    let name = spelling::put_text(out, 0, b"<place id=\"");
    let end = put_place_name(out, name, conditions, x);
    put_place_end(out, end, held)
}

// A transition put at the first byte.
fn put_transition(out: &mut [u8], conditions: usize, t: usize) -> usize
    ensures { Put out.old 0 (text_of conditions (Transition t)) result out.new }
{
    let name = spelling::put_text(out, 0, b"<transition id=\"");
    let end = put_transition_name(out, name, t);
    spelling::put_text(out, end, b"\"/>")
}

// The id of an arc's source put from a byte on.
fn put_source(out: &mut [u8], at: usize, conditions: usize, link: Link) -> usize
    requires { at + 21 ≤ farthest }
    ensures named { Put out.old at (source_name conditions link) result out.new }
    ensures near { result ≤ at + 21 }
{
    match link {
        Link::Into(x, _) => put_place_name(out, at, conditions, x),
        Link::OutOf(t, _) => put_transition_name(out, at, t),
    }
}

// The id of an arc's target put from a byte on.
fn put_target(out: &mut [u8], at: usize, conditions: usize, link: Link) -> usize
    requires { at + 21 ≤ farthest }
    ensures named { Put out.old at (target_name conditions link) result out.new }
    ensures near { result ≤ at + 21 }
{
    match link {
        Link::Into(_, t) => put_transition_name(out, at, t),
        Link::OutOf(_, x) => put_place_name(out, at, conditions, x),
    }
}

// The begin of an arc with its number put at the first byte.
fn put_arc_id(out: &mut [u8], a: usize) -> usize
    ensures named { Put out.old 0 (arc_begins ++ decimal a) result out.new }
    ensures near { result ≤ 30 }
{
    let number = spelling::put_text(out, 0, b"<arc id=\"a");
    spelling::put_number(out, number, a)
}

// An arc put at the first byte.
fn put_arc(out: &mut [u8], conditions: usize, a: usize, link: Link) -> usize
    ensures { Put out.old 0 (text_of conditions (Arc a link)) result out.new }
{
    let id = put_arc_id(out, a);
    let source = spelling::put_text(out, id, b"\" source=\"");
    let joined = put_source(out, source, conditions, link);
    let target = spelling::put_text(out, joined, b"\" target=\"");
    let end = put_target(out, target, conditions, link);
    spelling::put_text(out, end, b"\"/>")
}

// All that opens put at the first byte.
fn put_opens(out: &mut [u8], conditions: usize) -> usize
    ensures { Put out.old 0 (text_of conditions Opens) result out.new }
{
    let net = spelling::put_text(
        out,
        0,
        b"<pnml xmlns=\"http://www.pnml.org/version-2009/grammar/pnml\">",
    );
    let page = spelling::put_text(
        out,
        net,
        b"<net id=\"n\" type=\"http://www.pnml.org/version-2009/grammar/ptnet\">",
    );
    spelling::put_text(out, page, b"<page id=\"g\">")
}

// An element put at the first byte.
fn put_element(out: &mut [u8], conditions: usize, element: Element) -> usize
    ensures { Put out.old 0 (text_of conditions element) result out.new }
{
    match element {
        Element::Opens => put_opens(out, conditions),
        Element::Place(x, held) => put_place(out, conditions, x, held),
        Element::Transition(t) => put_transition(out, conditions, t),
        Element::Arc(a, link) => put_arc(out, conditions, a, link),
        Element::Closes => spelling::put_text(out, 0, b"</page></net></pnml>"),
    }
}

// An element of a net that doubles so many conditions written to a lent output.
pub fn write(conditions: usize, element: Element, out: &mut [u8]) -> Result<usize, Refusal>
    ensures answer { result ≡ fitting (length (text_of conditions element)) (length out.old) }
    ensures after { out.new ≡ written result (text_of conditions element) out.old }
{
    let mut nothing = [0u8; 1];
    let needed = put_element(&mut nothing, conditions, element);
    if out.len() < needed {
        return refusal::refused(16, needed);
    }
    put_element(out, conditions, element);
    Ok(needed)
}
