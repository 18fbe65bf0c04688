// Whether two events that follow each other may change places, by the lists of their records and the marking before them.
#![tactic(auto)]

ghost use Rattle.std.specs.Prelude.{◌≡◌, ◌++◌};
ghost use Rattle.lists.specs.Lists.{mem, all, ◌⇒◌};
ghost use Rattle.words.specs.Words.{words};
ghost use Rattle.model.specs.Exchange.{apart};
ghost use Rattle.table.specs.Decoded.{net_of};
ghost use Rattle.held.specs.Held.{held_in};
ghost use Rattle.apart.specs.Found.{Found};
ghost use Rattle.apart.specs.Tests.{passes_of};

// The tests that the conditions of a list are put to.
#[derive(Clone, Copy)]
pub enum Test {
    Shared,
    Held,
    Once,
}

// Whether an event touches a condition only if it is kept.
fn unshared<'a>(kept: bool, pre: &'a [u8], post: &'a [u8], b: usize) -> bool
    ensures { result ≡ (mem b (words pre.now ++ words post.now) ⇒ kept) }
{
    if words::has(pre, b) {
        return kept;
    }
    if words::has(post, b) {
        return kept;
    }
    true
}

// Whether one condition passes a test, by the persistent flags, the marking and the lists of an event.
fn passes<'a>(
    test: Test,
    flags: &'a [u8],
    held: [u64; 4],
    pre: &'a [u8],
    post: &'a [u8],
    b: u16,
) -> bool
    ensures { result ≡ passes_of test flags.now (held_in held) (words pre.now) (words post.now) b }
{
    let place = b as usize;
    let holds = held::holds(held, place);
    let kept = words::byte(flags, place) == 1;
    match test {
        Test::Shared => unshared(kept, pre, post, place),
        Test::Held => {
            if kept {
                return holds;
            }
            true
        }
        Test::Once => {
            if kept {
                if words::has(post, place) {
                    return holds;
                }
            }
            true
        }
    }
}

// Whether every condition of a list passes a test.
fn all_pass<'a>(
    test: Test,
    flags: &'a [u8],
    held: [u64; 4],
    pre: &'a [u8],
    post: &'a [u8],
    list: &'a [u8],
) -> bool
    ensures { result ≡ all (passes_of test flags.now (held_in held) (words pre.now) (words post.now)) (words list.now) }
{
    words::numbers(list).all(|b| passes(test, flags, held, pre, post, b))
}

// Whether events e and f, whose records stand at two offsets, may change places when e comes first.
pub fn apart_at<'a>(
    table: &'a [u8],
    e: u16,
    here: usize,
    f: u16,
    there: usize,
    held: [u64; 4],
) -> bool
    requires { Found table.now e here × Found table.now f there }
    ensures { result ≡ apart (net_of table.now) (held_in held) e f }
{
    if e == f {
        return false;
    }
    let flags = records::flags(table);
    let pre = records::pre_at(table, there);
    let post = records::post_at(table, there);
    if !all_pass(
        Test::Shared,
        flags,
        held,
        pre,
        post,
        records::pre_at(table, here),
    ) {
        return false;
    }
    let put = records::post_at(table, here);
    if !all_pass(Test::Shared, flags, held, pre, post, put) {
        return false;
    }
    if !all_pass(Test::Held, flags, held, pre, post, pre) {
        return false;
    }
    all_pass(Test::Once, flags, held, pre, post, put)
}
