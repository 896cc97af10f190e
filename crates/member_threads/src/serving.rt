//! The worker of a link: it receives the link's frames, each through the link's line.
ghost use Rattle.std.specs.Prelude.{ℕ, true, false, Some, [], ◌≡◌, ◌≢◌, ◌+◌, ◌*◌, ◌<◌, length};
ghost use Rattle.upd_base.specs.Plan.{bound, is_plan};
ghost use Rattle.upd_base.specs.declared.event.Event.TheVariants.{Receive};
ghost use Rattle.group_run.specs.Run.{next_frame};
ghost use Rattle.group_world.specs.Seen.{FrameFits};
ghost use Rattle.member_rules.specs.Kept.{rules_of};
ghost use Rattle.run_journal.specs.Causes.{open_frame, ReceiveCause};
ghost use Rattle.run_journal.specs.declared.faults.ReceiveFault.{ReceiveFault};
ghost use Rattle.turn_lock.specs.Lists.{IsPrefix};
ghost use Rattle.turn_lock.specs.Pass.{parts};
ghost use Rattle.live_group.specs.SharedGroup.{plan_shared, IsPassOf};
ghost use Rattle.live_group.specs.Pass.{events_seen, past_before, past_seen, places};
ghost use Rattle.live_group.specs.Turns.{MakesOne};
ghost use Rattle.line_rules.specs.Given.{IsEven};
ghost use Rattle.member_threads.specs.Knows.{BringsNoMore};
ghost use Rattle.member_threads.specs.Worker.{IsWorkersPass, HasWorked, IfWent, UnlessWent, wants};
ghost use Rattle.member_threads.specs.declared.step.Step.TheVariants.{Went};

use crate::step::Step;
use frame_carriage::keeps_limits;
use group_lines::bring;
use line_rules::LineState;
use live_group::{GroupPass, LiveGroup};
use order_trait::Ordering;
use run_journal::{ReceiveFault, ReleaseFault};
use std::alloc::Global;
use std::sync::Wait;
use std::thread;
use upd_base::{Frame, MemberId, NoMemory};
use upd_lines::Line;

/// How many turns in a row may find nothing.
const IDLE_TURNS: u32 = 200;

/// A line, and whether it is still used.
#[derive(Drop)]
pub(crate) struct Served<L: Line> {
    pub(crate) line: L,
    pub(crate) state: LineState,
}

// What a worker does where a frame was not received.
fn after_fault(fault: &ReceiveFault) -> Step
    ensures unmade { result ≢ Went }
    ensures memory { fault.now ≡ ReceiveFault.NoMemory → wants result ≡ true }
{
    match fault {
        ReceiveFault::NoMemory => Step::Wanted,
        _ => Step::Ended,
    }
}

/// Receives a frame that came over a link's line.
fn take_frame<O: Ordering, R: Wait>(
    rt: &R,
    alloc: Global,
    group: &LiveGroup<O>,
    pass: &mut GroupPass<O>,
    from: MemberId,
    to: MemberId,
    came: &Frame,
) -> Step
    requires pass { IsWorkersPass group.now (λ k. k ≡ from * (plan_shared group.now).members + to) pass.old }
    requires from_fits { from < (plan_shared group.now).members }
    requires to_fits { to < (plan_shared group.now).members }
    ensures pass { IsWorkersPass group.now (λ k. k ≡ from * (plan_shared group.now).members + to) pass.new }
    ensures parts { parts pass.new ≡ parts pass.old }
    ensures seen { IsPrefix (events_seen pass.old) (events_seen pass.new) }
    ensures made { IfWent result (MakesOne (Some (Receive from to)) pass.old pass.new) }
    ensures same { IfWent result (open_frame (rules_of O.Ordering) (plan_shared group.now) (past_before pass.new) from to ≡ Some came.now) }
    ensures room { IfWent result (length (past_before pass.new) < bound (plan_shared group.now)) }
    ensures unmade { UnlessWent result (places pass.new ≡ places pass.old) }
    ensures refused { UnlessWent result ((fault : ReceiveFault) × ReceiveCause (rules_of O.Ordering) (plan_shared group.now) (past_seen pass.new) from to came.now fault × (fault ≡ ReceiveFault.NoMemory → wants result ≡ true)) }
{
    match group.receive(rt, alloc, pass, from, to, came) {
        Ok(()) => Step::Went,
        Err(fault) => after_fault(&fault),
    }
}

/// Brings the frame that was found as the link's next over its line, and receives it. A line that has carried a frame that is not
/// received then stops.
fn bring_over<O: Ordering, L: Line, R: Wait>(
    rt: &R,
    alloc: Global,
    group: &LiveGroup<O>,
    pass: &mut GroupPass<O>,
    from: MemberId,
    to: MemberId,
    served: &mut Served<L>,
    frame: &Frame,
) -> Step
    requires pass { IsWorkersPass group.now (λ k. k ≡ from * (plan_shared group.now).members + to) pass.old }
    requires from_fits { from < (plan_shared group.now).members }
    requires to_fits { to < (plan_shared group.now).members }
    requires plan { is_plan (plan_shared group.now) ≡ true }
    requires next { next_frame (rules_of O.Ordering) (plan_shared group.now) (past_seen pass.old) from to ≡ Some frame.now }
    requires fits { FrameFits (plan_shared group.now).members frame.now }
    requires worked { (start : L) × HasWorked group.now L.Line pass.old from to false start served.old.line served.old.state }
    ensures pass { IsWorkersPass group.now (λ k. k ≡ from * (plan_shared group.now).members + to) pass.new }
    ensures parts { parts pass.new ≡ parts pass.old }
    ensures seen { IsPrefix (events_seen pass.old) (events_seen pass.new) }
    ensures worked { (start : L) → HasWorked group.now L.Line pass.old from to false start served.old.line served.old.state
        → HasWorked group.now L.Line pass.new from to (wants result) start served.new.line served.new.state }
{
    let LineState::Serving(count) = served.state else {
        return Step::Ended;
    };
    keeps_limits(frame);
    match bring(alloc, &mut served.line, &mut served.state, count, frame) {
        Ok(Some(came)) => match take_frame(rt, alloc, group, pass, from, to, &came) {
            Step::Went => Step::Went,
            step => {
                served.state = LineState::Stopped;
                step
            }
        },
        Ok(None) => Step::Ended,
        Err(NoMemory) => Step::Wanted,
    }
}

/// Receives the frame that a link has next, if it has one.
fn serve<O: Ordering, L: Line, R: Wait>(
    rt: &R,
    alloc: Global,
    group: &LiveGroup<O>,
    pass: &mut GroupPass<O>,
    from: MemberId,
    to: MemberId,
    served: &mut Served<L>,
) -> Step
    requires pass { IsWorkersPass group.now (λ k. k ≡ from * (plan_shared group.now).members + to) pass.old }
    requires from_fits { from < (plan_shared group.now).members }
    requires to_fits { to < (plan_shared group.now).members }
    requires plan { is_plan (plan_shared group.now) ≡ true }
    requires worked { (start : L) × HasWorked group.now L.Line pass.old from to false start served.old.line served.old.state }
    ensures pass { IsWorkersPass group.now (λ k. k ≡ from * (plan_shared group.now).members + to) pass.new }
    ensures parts { parts pass.new ≡ parts pass.old }
    ensures seen { IsPrefix (events_seen pass.old) (events_seen pass.new) }
    ensures worked { (start : L) → HasWorked group.now L.Line pass.old from to false start served.old.line served.old.state
        → HasWorked group.now L.Line pass.new from to (wants result) start served.new.line served.new.state }
{
    match group.fetch(rt, alloc, pass, from, to) {
        Ok(Some(frame)) => bring_over(rt, alloc, group, pass, from, to, served, &frame),
        Ok(None) => Step::Nothing,
        Err(NoMemory) => Step::Wanted,
    }
}

/// Makes a release at the member of a link to itself, where one is enabled.
fn release_own<O: Ordering, R: Wait>(
    rt: &R,
    alloc: Global,
    group: &LiveGroup<O>,
    pass: &mut GroupPass<O>,
    from: MemberId,
    to: MemberId,
) -> Step
    requires pass { IsWorkersPass group.now (λ k. k ≡ from * (plan_shared group.now).members + to) pass.old }
    requires to_fits { to < (plan_shared group.now).members }
    ensures pass { IsWorkersPass group.now (λ k. k ≡ from * (plan_shared group.now).members + to) pass.new }
    ensures parts { parts pass.new ≡ parts pass.old }
    ensures brings_none { BringsNoMore (rules_of O.Ordering) (plan_shared group.now) from to (events_seen pass.old) (places pass.old) (events_seen pass.new) (places pass.new) }
{
    if from != to {
        return Step::Nothing;
    }
    match group.release(rt, alloc, pass, to) {
        Ok(true) => Step::Went,
        Ok(false) => Step::Nothing,
        Err(ReleaseFault::Spent) => Step::Ended,
        Err(ReleaseFault::NoMemory) => Step::Wanted,
    }
}

/// Where nothing was found, the worker ends if the run is settled.
fn end_if_settled<O: Ordering, R: Wait>(
    rt: &R,
    group: &LiveGroup<O>,
    pass: &mut GroupPass<O>,
) -> Step
    requires { IsPassOf group.now pass.old }
    ensures of { IsPassOf group.now pass.new }
    ensures parts { parts pass.new ≡ parts pass.old }
    ensures seen { IsPrefix (events_seen pass.old) (events_seen pass.new) }
    ensures unmade { places pass.new ≡ places pass.old }
{
    if group.settled(rt, pass) {
        Step::Ended
    } else {
        Step::Nothing
    }
}

/// A turn of the worker: a receipt, and on a link to itself a release. The worker ends where the run is settled.
fn take_turn<O: Ordering, L: Line, R: Wait>(
    rt: &R,
    alloc: Global,
    group: &LiveGroup<O>,
    pass: &mut GroupPass<O>,
    from: MemberId,
    to: MemberId,
    served: &mut Served<L>,
) -> Step
    requires pass { IsWorkersPass group.now (λ k. k ≡ from * (plan_shared group.now).members + to) pass.old }
    requires from_fits { from < (plan_shared group.now).members }
    requires to_fits { to < (plan_shared group.now).members }
    requires plan { is_plan (plan_shared group.now) ≡ true }
    requires worked { (start : L) × HasWorked group.now L.Line pass.old from to false start served.old.line served.old.state }
    ensures pass { IsWorkersPass group.now (λ k. k ≡ from * (plan_shared group.now).members + to) pass.new }
    ensures parts { parts pass.new ≡ parts pass.old }
    ensures seen { IsPrefix (events_seen pass.old) (events_seen pass.new) }
    ensures worked { (start : L) → HasWorked group.now L.Line pass.old from to false start served.old.line served.old.state
        → HasWorked group.now L.Line pass.new from to (wants result) start served.new.line served.new.state }
{
    match serve(rt, alloc, group, pass, from, to, served) {
        Step::Went => match release_own(rt, alloc, group, pass, from, to) {
            Step::Nothing => Step::Went,
            released => released,
        },
        Step::Nothing => match release_own(rt, alloc, group, pass, from, to) {
            Step::Nothing => end_if_settled(rt, group, pass),
            released => released,
        },
        last => last,
    }
}

/// Serves a link until the run is settled, the line is used no more, memory was wanted, or many turns in a row found nothing. It comes
/// back with its pass, its line, and whether memory was wanted.
pub(crate) fn serve_link<O: Ordering, L: Line, R: Wait>(
    rt: &R,
    alloc: Global,
    group: &LiveGroup<O>,
    mut pass: GroupPass<O>,
    from: MemberId,
    to: MemberId,
    line: L,
) -> (GroupPass<O>, Served<L>, bool)
    requires pass { IsWorkersPass group.now (λ k. k ≡ from * (plan_shared group.now).members + to) pass }
    requires fresh { places pass ≡ [] }
    requires from_fits { from < (plan_shared group.now).members }
    requires to_fits { to < (plan_shared group.now).members }
    requires plan { is_plan (plan_shared group.now) ≡ true }
    requires even { IsEven (L.told line) }
    ensures pass { IsWorkersPass group.now (λ k. k ≡ from * (plan_shared group.now).members + to) result.0 }
    ensures parts { parts result.0 ≡ parts pass }
    ensures seen { IsPrefix (events_seen pass) (events_seen result.0) }
    ensures worked { HasWorked group.now L.Line result.0 from to result.2 line result.1.line result.1.state }
{
    let mut served = Served {
        line,
        state: LineState::Serving(0),
    };
    let mut idle = 0;
    for _ in rt.forever() {
        match take_turn(rt, alloc, group, &mut pass, from, to, &mut served) {
            Step::Went => idle = 0,
            Step::Nothing => {
                idle += 1;
                if idle >= IDLE_TURNS {
                    return (pass, served, false);
                }
                thread::yield_now();
            }
            Step::Ended => return (pass, served, false),
            Step::Wanted => return (pass, served, true),
        }
    }
    unreachable!()
}
