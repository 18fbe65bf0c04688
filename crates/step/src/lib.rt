// One step of the token game: what stops the event whose record stands at an offset of a table, and what its firing leaves, on words and
// on lent bytes.
#![tactic(auto)]

ghost use Rattle.std.specs.Prelude.{◌≡◌, not, ◌&&◌, ◌≤◌, length, get_or};
ghost use Rattle.std.specs.Int.Bits.{bit_or};
ghost use Rattle.words.specs.Words.{words};
ghost use Rattle.records.specs.Records.{flags};
ghost use Rattle.model.specs.Net.{stopping, fire};
ghost use Rattle.model.specs.Lent.{bytes, marking};
ghost use Rattle.held.specs.Held.{held_in, tabled};
ghost use Rattle.step.specs.Lent.{Lent};
ghost use Rattle.step.specs.Tests.{lowest, told_of, Listed, Recorded, Keeps, Moves};
ghost use Rattle.step.specs.Steps.{failing_of, set_one, set_all, lists_net, record_net, stepped};
ghost use Rattle.stopping.specs.Table.{step_of};

use refusal::TableCondition;
use stopping::Cause;

// One condition set to a byte, unless it is kept.
fn set_one(kept: &[u8], b: usize, value: u8, state: &mut [u8])
    ensures { state.new ≡ set_one kept.now value b state.old }
{
    if words::byte(kept, b) == 1 {
        return;
    }
    if b < state.len() {
        state[b] = value;
    }
}

// Each condition of a list set to a byte, unless it is kept.
pub fn set_all<'a>(kept: &'a [u8], list: &'a [u8], value: u8, state: &mut [u8])
    ensures { state.new ≡ set_all kept.now value (words list.now) state.old }
{
    for b in words::numbers(list) {
        set_one(kept, usize::from(b), value, state);
    }
}

// The bits of all words together.
fn together(held: [u64; 4]) -> u64
    ensures { result ≡ bit_or (bit_or (bit_or (get_or held 0 0) (get_or held 1 0)) (get_or held 2 0)) (get_or held 3 0) }
{
    held[0] | held[1] | held[2] | held[3]
}

// The lowest condition of words.
fn first(held: [u64; 4]) -> Option<TableCondition>
    ensures { result ≡ failing_of (lowest 256 (held_in held)) }
{
    if together(held) == 0 {
        return None;
    }
    (0..256)
        .find(|b| held::holds(held, usize::from(*b)))
        .map(TableCondition)
}

// The postconditions that hold and, but under the old rule, are no preconditions.
fn touched(pre: [u64; 4], post: [u64; 4], held: [u64; 4], old: bool) -> [u64; 4]
    ensures { held_in result ≡ (λ b. (held_in post b && held_in held b) && not (held_in pre b && not old)) }
{
    let both = held::both(post, held);
    if old {
        return both;
    }
    held::without(both, pre)
}

// What stops a step, by the first precondition that is lacking and the first postcondition in contact.
fn told(
    lacking: Option<TableCondition>,
    meeting: Option<TableCondition>,
) -> Result<(), Cause<TableCondition>>
    ensures { result ≡ told_of lacking meeting }
{
    if let Some(b) = lacking {
        return Err(Cause::Lacks(b));
    }
    if let Some(b) = meeting {
        return Err(Cause::Meets(b));
    }
    Ok(())
}

// The persistent conditions of a table, which no step takes.
pub fn kept(table: &[u8]) -> [u64; 4]
    ensures { Keeps table.now result }
{
    held::gather(records::flags(table))
}

// The lowest of conditions that is not persistent; which are is gathered only where there are some.
fn ordinary(table: &[u8], held: [u64; 4]) -> Option<TableCondition>
    ensures { result ≡ failing_of (lowest 256 (λ b. held_in held b && not (tabled (marking (flags table.now)) b))) }
{
    if together(held) == 0 {
        return None;
    }
    first(held::without(held, kept(table)))
}

// What stops an event with these two lists, if anything does.
fn test<'a>(
    table: &'a [u8],
    pre: &'a [u8],
    post: &'a [u8],
    state: &'a [u8],
) -> Result<(), Cause<TableCondition>>
    requires { Listed pre.now post.now × (length state.now ≤ 256) }
    ensures { result ≡ step_of (stopping (lists_net table.now pre.now post.now) (marking state.now) 0) }
{
    let held = held::gather(state);
    let takes = held::collect(pre);
    let puts = held::collect(post);
    let touched = touched(takes, puts, held, records::old_rule(table));
    told(first(held::without(takes, held)), ordinary(table, touched))
}

// What stops the event whose record stands at an offset, if anything does.
pub fn test_at<'a>(table: &'a [u8], at: usize, state: &'a [u8]) -> Result<(), Cause<TableCondition>>
    requires { Recorded table.now at × (length state.now ≤ 256) }
    ensures { result ≡ step_of (stopping (record_net table.now at) (marking state.now) 0) }
{
    let pre = records::pre_at(table, at);
    test(table, pre, records::post_at(table, at), state)
}

// One step of the game on lent bytes: the event whose record stands at an offset is tested, then fired.
pub fn step_at(table: &[u8], at: usize, state: &mut [u8]) -> Result<(), Cause<TableCondition>>
    requires { Recorded table.now at × Lent state.old × (length state.old ≤ 256) }
    ensures answer { result ≡ step_of (stopping (record_net table.now at) (marking state.old) 0) }
    ensures after { state.new ≡ stepped (stopping (record_net table.now at) (marking state.old) 0) (bytes (length state.old) (fire (record_net table.now at) (marking state.old) 0)) state.old }
{
    let pre = records::pre_at(table, at);
    let post = records::post_at(table, at);
    test(table, pre, post, &state[..])?;
    set_all(records::flags(table), pre, 0, state);
    set_all(&table[..0], post, 1, state);
    Ok(())
}

// One step of the game on words: the event whose record stands at an offset is tested, then fired; fine: the marking after it.
pub fn move_at(
    table: &[u8],
    at: usize,
    kept: [u64; 4],
    held: [u64; 4],
) -> Result<[u64; 4], Cause<TableCondition>>
    requires { Recorded table.now at × Keeps table.now kept }
    ensures { Moves (stopping (record_net table.now at) (held_in held) 0) (fire (record_net table.now at) (held_in held) 0) result }
{
    let pre = held::collect(records::pre_at(table, at));
    let post = held::collect(records::post_at(table, at));
    let touched = touched(pre, post, held, records::old_rule(table));
    let lacking = first(held::without(pre, held));
    told(lacking, first(held::without(touched, kept)))?;
    let taken = held::without(pre, kept);
    Ok(held::either(post, held::without(held, taken)))
}
