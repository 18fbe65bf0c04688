// Runs of a table replayed over lent memory, from its own marking or from a lent one.
#![tactic(auto)]

ghost use Rattle.std.specs.Prelude.{◌≡◌, Ok, length};
ghost use Rattle.model.specs.Runs.{end};
ghost use Rattle.model.specs.Lent.{bytes};
ghost use Rattle.refusal.specs.Answer.{written};
ghost use Rattle.table.specs.Walk.{judge_of};
ghost use Rattle.table.specs.Decoded.{net_of};
ghost use Rattle.held.specs.Held.{held_in};
ghost use Rattle.played.specs.Begun.{begun_at};
ghost use Rattle.replay.specs.Calls.{played_of, replay_of, end_of, replay_from_of, end_from_of};

use refusal::Refusal;

// A run of a judged table replayed from a marking; its end is written to a lent output.
fn replay_at<'a>(
    table: &'a [u8],
    n: usize,
    run: &'a [u16],
    start: [u64; 4],
    out: &mut [u8],
) -> Result<usize, Refusal>
    requires { judge_of table.now ≡ Ok n }
    ensures answer { result ≡ played_of (net_of table.now) (begun_at (net_of table.now) (held_in start)) run.now (length out.old) }
    ensures after { out.new ≡ written result (bytes (net_of table.now).conditions (end (net_of table.now) (held_in start) run.now)) out.old }
{
    let mut offsets = [0usize; 256];
    played::fill(table, n, &mut offsets);
    let ended = played::play(table, n, &offsets, run, start)?;
    played::write_end(ended.held, ended.conditions, out)
}

// A run replayed from the table's marking; its end is written to a lent output.
pub fn replay<'a>(table: &'a [u8], run: &'a [u16], end: &mut [u8]) -> Result<usize, Refusal>
    ensures answer { result ≡ replay_of table.now run.now (length end.old) }
    ensures after { end.new ≡ end_of table.now run.now end.old }
{
    let n = table::judge(table)?;
    replay_at(table, n, run, played::start_held(table, n), end)
}

// A run replayed from a lent marking; its end is written to a lent output.
pub fn replay_from<'a>(
    table: &'a [u8],
    marking: &'a [u8],
    run: &'a [u16],
    end: &mut [u8],
) -> Result<usize, Refusal>
    ensures answer { result ≡ replay_from_of table.now marking.now run.now (length end.old) }
    ensures after { end.new ≡ end_from_of table.now marking.now run.now end.old }
{
    let n = game::judge_lent(table, marking)?;
    replay_at(table, n, run, held::gather(marking), end)
}
