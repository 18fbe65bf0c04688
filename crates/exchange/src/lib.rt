// The exchange of two neighbouring steps of a lent run, where they may change places.
#![tactic(auto)]

ghost use Rattle.std.specs.Prelude.{◌≡◌, suc, ◌≤◌, length, ltb};
ghost use Rattle.model.specs.Net.{begin};
ghost use Rattle.model.specs.Exchange.{apart_step, exchanged};
ghost use Rattle.table.specs.Decoded.{net_of};
ghost use Rattle.exchange.specs.Played.{Exchangeable};
ghost use Rattle.exchange.specs.Calls.{exchange_of, exchanged_of};

use refusal::Refusal;

// Whether steps k and k + 1 of a run may change places, by the marking before step k.
fn apart_steps<'a>(
    table: &'a [u8],
    n: usize,
    offsets: &'a [usize],
    run: &'a [u16],
    k: usize,
) -> bool
    requires { Exchangeable table.now n offsets.now run.now k }
    ensures { result ≡ apart_step (net_of table.now) (begin (net_of table.now)) run.now k }
{
    let start = played::start_held(table, n);
    let before = played::play(table, n, offsets, &run[0..k], start).unwrap();
    let e = run[k];
    let f = run[k + 1];
    apart::apart_at(
        table,
        e,
        offsets[e as usize],
        f,
        offsets[f as usize],
        before.held,
    )
}

// Whether a run of so many steps has a step k + 1.
fn has_next(steps: usize, k: usize) -> bool
    ensures { result ≡ ltb (suc k) steps }
{
    if k < steps {
        return 1 < steps - k;
    }
    false
}

// The first two numbers of a part of a run change places.
fn swap_first(part: &mut [u16])
    requires { 2 ≤ length part.old }
    ensures { part.new ≡ exchanged 0 part.old }
{
    let e = part[0];
    let f = part[1];
    part[0] = f;
    part[1] = e;
}

// Steps k and k + 1 of a lent run change places, where they may.
pub fn exchange(table: &[u8], run: &mut [u16], k: usize) -> Result<usize, Refusal>
    ensures answer { result ≡ exchange_of table.now run.old k }
    ensures after { run.new ≡ exchanged_of table.now run.old k }
{
    let n = table::judge(table)?;
    let mut offsets = [0usize; 256];
    played::fill(table, n, &mut offsets);
    let start = played::start_held(table, n);
    played::play(table, n, &offsets, &run[..], start)?;
    if has_next(run.len(), k) {
        if apart_steps(table, n, &offsets, &run[..], k) {
            swap_first(&mut run[k..]);
            return Ok(2);
        }
        return refusal::refused(17, k);
    }
    refusal::refused(10, k)
}
