// The static library for C: exports the calls that include/dovetrellis.h declares, each as the function of its name in the crate ffi, whose
// promise it states again. A crate is a library or a static library, not both, so ffi itself exports nothing.
#![tactic(auto)]

ghost use Rattle.std.specs.Prelude.{◌≡◌, true, false, length, Ok};
ghost use Rattle.refusal.specs.Answer.{and_then};
ghost use Rattle.model.specs.Unfolding.{basic};
ghost use Rattle.table.specs.Walk.{judge_of};
ghost use Rattle.table.specs.Decoded.{net_of};
ghost use Rattle.asking.specs.Calls.{preconditions_of, preconditions_into, postconditions_of, postconditions_into, start_of, start_into};
ghost use Rattle.game.specs.Calls.{concession_of, fire_of, fired_of};
ghost use Rattle.replay.specs.Calls.{replay_of, end_of};
ghost use Rattle.exchange.specs.Calls.{exchange_of, exchanged_of};
ghost use Rattle.runs.specs.Runs.{run_kind, lifted_kind, read_answer, run_into};
ghost use Rattle.writing.specs.Writing.{write_answer, record_into};
ghost use Rattle.layout.specs.Unfolds.{unfolding_of};
ghost use Rattle.events.specs.Answers.{origin_of, origin_event};
ghost use Rattle.event_numbers.specs.Answers.{number_of};
ghost use Rattle.conditions.specs.Origins.{condition_origin_of};
ghost use Rattle.starting.specs.Calls.{unfolded_start_of, unfolded_started_of};
ghost use Rattle.unfolded_lists.specs.Calls.{unfolded_list_of, unfolded_listed_of};
ghost use Rattle.firing.specs.Calls.{unfolded_fire_of, unfolded_fired_of};
ghost use Rattle.losses.specs.Calls.{lossy_of, lossy_into};
ghost use Rattle.lift.specs.Calls.{lift_of, lifted_of};
ghost use Rattle.project.specs.Calls.{project_of, projected_of};
ghost use Rattle.elements.specs.Calls.{element_count_of, element_of, element_written_of};
ghost use Rattle.ends.specs.Calls.{unfolded_replay_of, unfolded_replayed_of, lift_end_of, lift_ended_of};
ghost use Rattle.outward.specs.Origins.{condition_or, copy_or, marker_or, user_or};
ghost use Rattle.outward.specs.Told.{answer_of, value_or, given};
ghost use Rattle.outward.specs.Words.{colour_for, markers_of, markers_into, condition_for};

use outward::Answer;

// A table judged.
#[unsafe(no_mangle)]
pub extern "C" fn dovetrellis_judge(table: &[u8]) -> Answer
    ensures { result ≡ answer_of (judge_of table.now) }
{
    ffi::dovetrellis_judge(table)
}

// The numbers of conditions and of events.
#[unsafe(no_mangle)]
pub extern "C" fn dovetrellis_counts(table: &[u8], conditions: &mut u64, events: &mut u64) -> Answer
    ensures answer { result ≡ answer_of (and_then (judge_of table.now) (λ _. Ok (net_of table.now).events)) }
    ensures some { conditions.new ≡ value_or (and_then (judge_of table.now) (λ _. Ok (net_of table.now).conditions)) conditions.old }
    ensures others { events.new ≡ value_or (and_then (judge_of table.now) (λ _. Ok (net_of table.now).events)) events.old }
{
    ffi::dovetrellis_counts(table, conditions, events)
}

// The preconditions of an event.
#[unsafe(no_mangle)]
pub extern "C" fn dovetrellis_pre(
    table: &[u8],
    event: u16,
    out: &mut [u16],
    count: &mut u64,
) -> Answer
    ensures answer { result ≡ answer_of (preconditions_of table.now event (length out.old)) }
    ensures after { out.new ≡ preconditions_into table.now event out.old }
    ensures many { count.new ≡ value_or (preconditions_of table.now event (length out.old)) count.old }
{
    ffi::dovetrellis_pre(table, event, out, count)
}

// The postconditions of an event.
#[unsafe(no_mangle)]
pub extern "C" fn dovetrellis_post(
    table: &[u8],
    event: u16,
    out: &mut [u16],
    count: &mut u64,
) -> Answer
    ensures answer { result ≡ answer_of (postconditions_of table.now event (length out.old)) }
    ensures after { out.new ≡ postconditions_into table.now event out.old }
    ensures many { count.new ≡ value_or (postconditions_of table.now event (length out.old)) count.old }
{
    ffi::dovetrellis_post(table, event, out, count)
}

// The marking at the start.
#[unsafe(no_mangle)]
pub extern "C" fn dovetrellis_start(table: &[u8], out: &mut [u8]) -> Answer
    ensures answer { result ≡ answer_of (start_of table.now (length out.old)) }
    ensures after { out.new ≡ start_into table.now out.old }
{
    ffi::dovetrellis_start(table, out)
}

// Whether an event can fire at a lent marking.
#[unsafe(no_mangle)]
pub extern "C" fn dovetrellis_can_fire<'a>(table: &'a [u8], marking: &'a [u8], event: u16) -> Answer
    ensures { result ≡ answer_of (concession_of table.now marking.now event) }
{
    ffi::dovetrellis_can_fire(table, marking, event)
}

// An event fired at a lent marking, over which the new one is written.
#[unsafe(no_mangle)]
pub extern "C" fn dovetrellis_fire(table: &[u8], marking: &mut [u8], event: u16) -> Answer
    ensures answer { result ≡ answer_of (fire_of table.now marking.old event) }
    ensures after { marking.new ≡ fired_of table.now marking.old event }
{
    ffi::dovetrellis_fire(table, marking, event)
}

// A run replayed from the table's marking.
#[unsafe(no_mangle)]
pub extern "C" fn dovetrellis_replay<'a>(table: &'a [u8], run: &'a [u16], end: &mut [u8]) -> Answer
    ensures answer { result ≡ answer_of (replay_of table.now run.now (length end.old)) }
    ensures after { end.new ≡ end_of table.now run.now end.old }
{
    ffi::dovetrellis_replay(table, run, end)
}

// Two neighbouring steps of a lent run change places.
#[unsafe(no_mangle)]
pub extern "C" fn dovetrellis_exchange(table: &[u8], run: &mut [u16], k: u64) -> Answer
    ensures answer { result ≡ answer_of (exchange_of table.now run.old k) }
    ensures after { run.new ≡ exchanged_of table.now run.old k }
{
    ffi::dovetrellis_exchange(table, run, k)
}

// The numbers of unfolded conditions and of unfolded events.
#[unsafe(no_mangle)]
pub extern "C" fn dovetrellis_unfolded_counts(
    table: &[u8],
    conditions: &mut u64,
    events: &mut u64,
) -> Answer
    ensures answer { result ≡ answer_of (unfolding_of table.now (Ok (basic (net_of table.now)).events)) }
    ensures some { conditions.new ≡ value_or (unfolding_of table.now (Ok (basic (net_of table.now)).conditions)) conditions.old }
    ensures others { events.new ≡ value_or (unfolding_of table.now (Ok (basic (net_of table.now)).events)) events.old }
{
    ffi::dovetrellis_unfolded_counts(table, conditions, events)
}

// The event and the markers behind an unfolded event.
#[unsafe(no_mangle)]
pub extern "C" fn dovetrellis_event_origin(
    table: &[u8],
    unfolded: u16,
    markers: &mut [u32],
    event: &mut u16,
    count: &mut u64,
) -> Answer
    ensures answer { result ≡ answer_of (markers_of (origin_of table.now unfolded) (length markers.old)) }
    ensures after { markers.new ≡ markers_into (origin_of table.now unfolded) markers.old }
    ensures behind { event.new ≡ given (markers_of (origin_of table.now unfolded) (length markers.old)) (origin_event (origin_of table.now unfolded)) event.old }
    ensures many { count.new ≡ value_or (markers_of (origin_of table.now unfolded) (length markers.old)) count.old }
{
    ffi::dovetrellis_event_origin(table, unfolded, markers, event, count)
}

// The unfolded event for an event and markers.
#[unsafe(no_mangle)]
pub extern "C" fn dovetrellis_event_number(
    table: &[u8],
    event: u16,
    markers: &[u32],
    unfolded: &mut u16,
) -> Answer
    ensures answer { result ≡ answer_of (number_of table.now event (colour_for markers.now)) }
    ensures number { unfolded.new ≡ value_or (number_of table.now event (colour_for markers.now)) unfolded.old }
{
    ffi::dovetrellis_event_number(table, event, markers, unfolded)
}

// The condition behind an unfolded one, with the marker and the user of a copy.
#[unsafe(no_mangle)]
pub extern "C" fn dovetrellis_condition_origin(
    table: &[u8],
    unfolded: u16,
    condition: &mut u16,
    copy: &mut bool,
    marker: &mut u32,
    user: &mut u16,
) -> Answer
    ensures answer { result ≡ answer_of (condition_origin_of table.now unfolded) }
    ensures behind { condition.new ≡ condition_or (condition_origin_of table.now unfolded) condition.old }
    ensures copied { copy.new ≡ copy_or (condition_origin_of table.now unfolded) copy.old }
    ensures marked { marker.new ≡ marker_or (condition_origin_of table.now unfolded) marker.old }
    ensures used { user.new ≡ user_or (condition_origin_of table.now unfolded) user.old }
{
    ffi::dovetrellis_condition_origin(table, unfolded, condition, copy, marker, user)
}

// The unfolded condition for an ordinary condition, or for a persistent one with a marker and a user.
#[unsafe(no_mangle)]
pub extern "C" fn dovetrellis_condition_number(
    table: &[u8],
    condition: u16,
    copy: bool,
    marker: u32,
    user: u16,
    unfolded: &mut u16,
) -> Answer
    ensures answer { result ≡ answer_of (condition_for table.now condition copy marker user) }
    ensures number { unfolded.new ≡ value_or (condition_for table.now condition copy marker user) unfolded.old }
{
    ffi::dovetrellis_condition_number(table, condition, copy, marker, user, unfolded)
}

// The preconditions of an unfolded event.
#[unsafe(no_mangle)]
pub extern "C" fn dovetrellis_unfolded_pre(
    table: &[u8],
    unfolded: u16,
    out: &mut [u16],
    count: &mut u64,
) -> Answer
    ensures answer { result ≡ answer_of (unfolded_list_of table.now false unfolded (length out.old)) }
    ensures after { out.new ≡ unfolded_listed_of table.now false unfolded out.old }
    ensures many { count.new ≡ value_or (unfolded_list_of table.now false unfolded (length out.old)) count.old }
{
    ffi::dovetrellis_unfolded_pre(table, unfolded, out, count)
}

// The postconditions of an unfolded event.
#[unsafe(no_mangle)]
pub extern "C" fn dovetrellis_unfolded_post(
    table: &[u8],
    unfolded: u16,
    out: &mut [u16],
    count: &mut u64,
) -> Answer
    ensures answer { result ≡ answer_of (unfolded_list_of table.now true unfolded (length out.old)) }
    ensures after { out.new ≡ unfolded_listed_of table.now true unfolded out.old }
    ensures many { count.new ≡ value_or (unfolded_list_of table.now true unfolded (length out.old)) count.old }
{
    ffi::dovetrellis_unfolded_post(table, unfolded, out, count)
}

// The unfolded marking at the start.
#[unsafe(no_mangle)]
pub extern "C" fn dovetrellis_unfolded_start(table: &[u8], out: &mut [u8]) -> Answer
    ensures answer { result ≡ answer_of (unfolded_start_of table.now (length out.old)) }
    ensures after { out.new ≡ unfolded_started_of table.now out.old }
{
    ffi::dovetrellis_unfolded_start(table, out)
}

// An unfolded event fired at a lent unfolded marking, over which the new one is written.
#[unsafe(no_mangle)]
pub extern "C" fn dovetrellis_unfolded_fire(
    table: &[u8],
    marking: &mut [u8],
    unfolded: u16,
) -> Answer
    ensures answer { result ≡ answer_of (unfolded_fire_of table.now marking.old unfolded) }
    ensures after { marking.new ≡ unfolded_fired_of table.now marking.old unfolded }
{
    ffi::dovetrellis_unfolded_fire(table, marking, unfolded)
}

// A run lifted to one of the unfolding.
#[unsafe(no_mangle)]
pub extern "C" fn dovetrellis_lift<'a>(table: &'a [u8], run: &'a [u16], out: &mut [u16]) -> Answer
    ensures answer { result ≡ answer_of (lift_of table.now run.now (length out.old)) }
    ensures after { out.new ≡ lifted_of table.now run.now out.old }
{
    ffi::dovetrellis_lift(table, run, out)
}

// A run of unfolded events played and taken back to the table.
#[unsafe(no_mangle)]
pub extern "C" fn dovetrellis_project<'a>(
    table: &'a [u8],
    lifted: &'a [u16],
    out: &mut [u16],
) -> Answer
    ensures answer { result ≡ answer_of (project_of table.now lifted.now (length out.old)) }
    ensures after { out.new ≡ projected_of table.now lifted.now out.old }
{
    ffi::dovetrellis_project(table, lifted, out)
}

// The unfolded marking that the lift of a run ends in.
#[unsafe(no_mangle)]
pub extern "C" fn dovetrellis_lift_end<'a>(
    table: &'a [u8],
    run: &'a [u16],
    out: &mut [u8],
) -> Answer
    ensures answer { result ≡ answer_of (lift_end_of table.now run.now (length out.old)) }
    ensures after { out.new ≡ lift_ended_of table.now run.now out.old }
{
    ffi::dovetrellis_lift_end(table, run, out)
}

// The unfolded marking that a run of unfolded events ends in.
#[unsafe(no_mangle)]
pub extern "C" fn dovetrellis_unfolded_replay<'a>(
    table: &'a [u8],
    lifted: &'a [u16],
    end: &mut [u8],
) -> Answer
    ensures answer { result ≡ answer_of (unfolded_replay_of table.now lifted.now (length end.old)) }
    ensures after { end.new ≡ unfolded_replayed_of table.now lifted.now end.old }
{
    ffi::dovetrellis_unfolded_replay(table, lifted, end)
}

// A Run record read.
#[unsafe(no_mangle)]
pub extern "C" fn dovetrellis_read_run(bytes: &[u8], out: &mut [u16], count: &mut u64) -> Answer
    ensures answer { result ≡ answer_of (read_answer run_kind bytes.now (length out.old)) }
    ensures after { out.new ≡ run_into run_kind bytes.now out.old }
    ensures many { count.new ≡ value_or (read_answer run_kind bytes.now (length out.old)) count.old }
{
    ffi::dovetrellis_read_run(bytes, out, count)
}

// A Lifted record read.
#[unsafe(no_mangle)]
pub extern "C" fn dovetrellis_read_lifted(bytes: &[u8], out: &mut [u16], count: &mut u64) -> Answer
    ensures answer { result ≡ answer_of (read_answer lifted_kind bytes.now (length out.old)) }
    ensures after { out.new ≡ run_into lifted_kind bytes.now out.old }
    ensures many { count.new ≡ value_or (read_answer lifted_kind bytes.now (length out.old)) count.old }
{
    ffi::dovetrellis_read_lifted(bytes, out, count)
}

// A Run record written.
#[unsafe(no_mangle)]
pub extern "C" fn dovetrellis_write_run(run: &[u16], out: &mut [u8], count: &mut u64) -> Answer
    ensures answer { result ≡ answer_of (write_answer run.now (length out.old)) }
    ensures after { out.new ≡ record_into run_kind run.now out.old }
    ensures many { count.new ≡ value_or (write_answer run.now (length out.old)) count.old }
{
    ffi::dovetrellis_write_run(run, out, count)
}

// A Lifted record written.
#[unsafe(no_mangle)]
pub extern "C" fn dovetrellis_write_lifted(
    lifted: &[u16],
    out: &mut [u8],
    count: &mut u64,
) -> Answer
    ensures answer { result ≡ answer_of (write_answer lifted.now (length out.old)) }
    ensures after { out.new ≡ record_into lifted_kind lifted.now out.old }
    ensures many { count.new ≡ value_or (write_answer lifted.now (length out.old)) count.old }
{
    ffi::dovetrellis_write_lifted(lifted, out, count)
}

// How many elements the export of a table has.
#[unsafe(no_mangle)]
pub extern "C" fn dovetrellis_element_count(table: &[u8], count: &mut u64) -> Answer
    ensures answer { result ≡ answer_of (element_count_of table.now) }
    ensures many { count.new ≡ value_or (element_count_of table.now) count.old }
{
    ffi::dovetrellis_element_count(table, count)
}

// An element of the export of a table.
#[unsafe(no_mangle)]
pub extern "C" fn dovetrellis_element(
    table: &[u8],
    element: u64,
    out: &mut [u8],
    count: &mut u64,
) -> Answer
    ensures answer { result ≡ answer_of (element_of table.now element (length out.old)) }
    ensures after { out.new ≡ element_written_of table.now element out.old }
    ensures many { count.new ≡ value_or (element_of table.now element (length out.old)) count.old }
{
    ffi::dovetrellis_element(table, element, out, count)
}

// The lossy events of a table, a byte for each event.
#[unsafe(no_mangle)]
pub extern "C" fn dovetrellis_lossy(table: &[u8], out: &mut [u8]) -> Answer
    ensures answer { result ≡ answer_of (lossy_of table.now (length out.old)) }
    ensures after { out.new ≡ lossy_into table.now out.old }
{
    ffi::dovetrellis_lossy(table, out)
}
