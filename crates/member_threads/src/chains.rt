//! The workers of a group, each in a thread of its own, in a chain: the pass is split for each, and every part and every line comes back.
ghost use Rattle.std.specs.Prelude.{ℕ, true, None, [], ◌≡◌, ◌+◌, ◌*◌, ◌<◌, ◌≤◌, ◌-◌, length, set, slice_index_or};
ghost use denote.Param.Send.{IsSync};
ghost use Rattle.upd_base.specs.Plan.{is_plan};
ghost use Rattle.turn_lock.specs.Lists.{IsPrefix};
ghost use Rattle.turn_lock.specs.Pass.{parts};
ghost use Rattle.live_group.specs.SharedGroup.{plan_shared};
ghost use Rattle.live_group.specs.Pass.{events_seen, places};
ghost use Rattle.line_rules.specs.Given.{IsEven};
ghost use Rattle.line_rules.specs.Lines.{IsEvenLine};
ghost use Rattle.member_threads.specs.Worker.{IsWorkersPass, HasWorked, HaveServed, MayServe};

use crate::calling::make_calls;
use crate::serving::{Served, serve_link};
use group_lines::link_at;
use line_rules::LineState;
use live_group::{GroupPass, LiveGroup};
use order_trait::Ordering;
use std::alloc::Global;
use std::sync::Wait;
use std::thread;
use std::thread::Threads;
use upd_lines::Line;
use worker_gates::Gate;

/// The lines of a group at their places, with their states, and whether a request for memory was refused.
#[derive(Drop)]
pub(crate) struct Left<L: Line> {
    pub(crate) lines: Vec<Option<L>>,
    pub(crate) states: Vec<LineState>,
    pub(crate) wanted: bool,
}

/// Takes the line at a place, if one is there.
fn take_line<L: Line>(left: &mut Left<L>, place: usize) -> Option<L>
    requires { place < length left.old.lines.items }
    ensures line { result ≡ slice_index_or left.old.lines.items place None }
    ensures lines { left.new.lines.items ≡ set left.old.lines.items place None }
    ensures states { left.new.states.items ≡ left.old.states.items }
{
    left.lines[place].take()
}

/// Puts a line back at its place, with its state.
fn put_back<L: Line>(left: &mut Left<L>, place: usize, line: Option<L>, state: LineState)
    requires lines { place < length left.old.lines.items }
    requires states { place < length left.old.states.items }
    ensures lines { left.new.lines.items ≡ set left.old.lines.items place line }
    ensures states { left.new.states.items ≡ set left.old.states.items place state }
    ensures wanted { left.new.wanted ≡ left.old.wanted }
{
    left.lines[place] = line;
    left.states[place] = state;
}

// Whether one of the two is so.
fn either(one: bool, other: bool) -> bool
    ensures one { one ≡ true → result ≡ true }
    ensures other { other ≡ true → result ≡ true }
{
    one || other
}

/// A worker for each link from this place on whose line is there. They come back with the pass and all lines.
fn serve_links<O: Ordering, L: Line, R: Threads + Wait + Sync>(
    rt: &R,
    alloc: Global,
    group: &LiveGroup<O>,
    mut pass: GroupPass<O>,
    mut left: Left<L>,
    place: usize,
    members: u8,
) -> (GroupPass<O>, Left<L>)
    requires { MayServe group.now L.Line place members 0 pass left.lines.items left.states.items }
    ensures { HaveServed group.now L.Line place (parts pass) result.0 result.1.wanted left.lines.items result.1.lines.items result.1.states.items }
{
    if place >= left.lines.len() {
        return (pass, left);
    }
    let next = place + 1;
    let Some(line) = take_line(&mut left, place) else {
        let (pass, mut left) = serve_links(rt, alloc, group, pass, left, next, members);
        put_back(&mut left, place, None, LineState::Missing);
        return (pass, left);
    };
    let (from, to) = link_at(members, place);
    let other = group.split(&mut pass);
    let ((theirs, served, short), (mut mine, mut left)) = thread::join(
        rt,
        move || -> (GroupPass<O>, Served<L>, bool)
            requires { IsWorkersPass group.now (λ k. k ≡ from * (plan_shared group.now).members + to) other × (places other ≡ []) × (from < (plan_shared group.now).members) × (to < (plan_shared group.now).members) × (is_plan (plan_shared group.now) ≡ true) × IsEven (L.told line) }
            ensures { IsWorkersPass group.entry.now (λ k. k ≡ from * (plan_shared group.entry.now).members + to) result.0 × (parts result.0 ≡ parts other) × HasWorked group.entry.now L.Line result.0 from to result.2 line result.1.line result.1.state }
        { serve_link(rt, alloc, group, other, from, to, line) },
        move || -> (GroupPass<O>, Left<L>)
            requires { IsSync R.row × MayServe group.now L.Line next members 0 pass left.lines.items left.states.items }
            ensures { HaveServed group.entry.now L.Line next (parts pass) result.0 result.1.wanted left.lines.items result.1.lines.items result.1.states.items }
        { serve_links(rt, alloc, group, pass, left, next, members) },
    );
    group.join(&mut mine, theirs);
    let Served { line, state } = served;
    put_back(&mut left, place, Some(line), state);
    left.wanted = either(left.wanted, short);
    (mine, left)
}

/// A worker for each thread of the plan from this number on, and behind them one for each link whose line is there. They come back with
/// the pass and all lines.
pub(crate) fn run_workers<O: Ordering, L: Line, G: Gate, R: Threads + Wait + Sync>(
    rt: &R,
    alloc: Global,
    group: &LiveGroup<O>,
    gate: &G,
    mut pass: GroupPass<O>,
    left: Left<L>,
    number: u8,
    threads: u8,
    members: u8,
) -> (GroupPass<O>, Left<L>)
    requires workers { MayServe group.now L.Line 0 members (threads - number) pass left.lines.items left.states.items }
    requires threads { threads ≡ length (plan_shared group.now).threads }
    ensures { HaveServed group.now L.Line 0 (parts pass) result.0 result.1.wanted left.lines.items result.1.lines.items result.1.states.items }
{
    if number >= threads {
        return serve_links(rt, alloc, group, pass, left, 0, members);
    }
    let next = number + 1;
    let other = group.split(&mut pass);
    let ((theirs, short), (mut mine, mut left)) = thread::join(
        rt,
        move || -> (GroupPass<O>, bool)
            requires { IsWorkersPass group.now (λ _. ⊥) other × (number < length (plan_shared group.now).threads) }
            ensures { IsWorkersPass group.entry.now (λ _. ⊥) result.0 × (parts result.0 ≡ parts other) }
        { make_calls(rt, alloc, group, gate, other, number) },
        move || -> (GroupPass<O>, Left<L>)
            requires { IsSync R.row × MayServe group.now L.Line 0 members (threads - next) pass left.lines.items left.states.items × (threads ≡ length (plan_shared group.now).threads) }
            ensures { HaveServed group.entry.now L.Line 0 (parts pass) result.0 result.1.wanted left.lines.items result.1.lines.items result.1.states.items }
        { run_workers(rt, alloc, group, gate, pass, left, next, threads, members) },
    );
    group.join(&mut mine, theirs);
    let wanted = either(left.wanted, short);
    left.wanted = wanted;
    (mine, left)
}
