//! Threads that make 1,000 calls in all, and receive while a member is full.
ghost use Rattle.std.specs.Prelude.{◌≡◌, ◌+◌, ◌<◌, length};
ghost use Rattle.turn_lock.specs.Pass.{parts};
ghost use Rattle.live_group.specs.SharedGroup.{plan_shared, IsPassOf};

use super::*;
use std::thread::{Threads, join};

type Group = LiveGroup<SequencerOrder>;

type Leave = GroupPass<SequencerOrder>;

/// How often a thread tries at most.
const TRIES: u32 = 1_000_000;

/// What a thread comes back with: the answers of its calls in their order, if it made them all, and its pass.
#[derive(Drop)]
struct Caller {
    answers: Option<Vec<Answer>>,
    pass: Leave,
}

/// Receives the frame that a link has next, if it has one and nobody is quicker.
fn receive_next<R: Wait>(
    rt: &R,
    alloc: Global,
    group: &Group,
    pass: &mut Leave,
    from: MemberId,
    to: MemberId,
)
    requires of { IsPassOf group.now pass.old }
    requires from_fits { from < (plan_shared group.now).members }
    requires to_fits { to < (plan_shared group.now).members }
    ensures of { IsPassOf group.now pass.new }
    ensures parts { parts pass.new ≡ parts pass.old }
{
    if let Ok(Some(frame)) = group.fetch(rt, alloc, pass, from, to) {
        let _received = group.receive(rt, alloc, pass, from, to, &frame);
    }
}

/// Receives a frame on each link that has one.
fn receive_each<R: Wait>(rt: &R, alloc: Global, group: &Group, pass: &mut Leave)
    requires of { IsPassOf group.now pass.old }
    requires members { (plan_shared group.now).members ≡ 3 }
    ensures of { IsPassOf group.now pass.new }
    ensures parts { parts pass.new ≡ parts pass.old }
{
    for link in 0..9 {
        if let (Some(from), Some(to)) = (MemberId::new(link / 3), MemberId::new(link % 3)) {
            receive_next(rt, alloc, group, pass, from, to);
        }
    }
}

/// Makes all calls of a thread, and receives where its member is full.
fn make_calls<R: Wait>(rt: &R, alloc: Global, group: &Group, mut pass: Leave, thread: u8) -> Caller
    requires of { IsPassOf group.now pass }
    requires members { (plan_shared group.now).members ≡ 3 }
    requires thread { thread < length (plan_shared group.now).threads }
    ensures of { IsPassOf group.now result.pass }
    ensures parts { parts result.pass ≡ parts pass }
{
    let mut answers = Vec::new(alloc);
    for _ in 0..TRIES {
        match group.call(rt, alloc, &mut pass, thread) {
            Ok(Offer::Answered(answer)) => {
                if answers.push(answer).is_err() {
                    break;
                }
            }
            Ok(Offer::NotNow) => receive_each(rt, alloc, group, &mut pass),
            Err(CallFault::PlanDone) => {
                return Caller {
                    answers: Some(answers),
                    pass,
                };
            }
            Err(_) => break,
        }
    }
    Caller {
        answers: None,
        pass,
    }
}

/// Two threads at once, for the plan's threads of this number and the next.
fn two_callers<R: Threads + Wait + Sync>(
    rt: &R,
    alloc: Global,
    group: &Group,
    one: Leave,
    two: Leave,
    number: u8,
) -> (Caller, Caller)
    requires one { IsPassOf group.now one }
    requires two { IsPassOf group.now two }
    requires members { (plan_shared group.now).members ≡ 3 }
    requires threads { number + 1 < length (plan_shared group.now).threads }
    requires small { number < 16 }
    ensures one { IsPassOf group.now result.0.pass }
    ensures two { IsPassOf group.now result.1.pass }
    ensures one_parts { parts result.0.pass ≡ parts one }
    ensures two_parts { parts result.1.pass ≡ parts two }
{
    let next = number + 1;
    join(
        rt,
        move || -> Caller
            requires { IsPassOf group.now one × ((plan_shared group.now).members ≡ 3) × (number < length (plan_shared group.now).threads) }
            ensures { IsPassOf group.entry.now result.pass × (parts result.pass ≡ parts one) }
        { make_calls(rt, alloc, group, one, number) },
        move || -> Caller
            requires { IsPassOf group.now two × ((plan_shared group.now).members ≡ 3) × (next < length (plan_shared group.now).threads) }
            ensures { IsPassOf group.entry.now result.pass × (parts result.pass ≡ parts two) }
        { make_calls(rt, alloc, group, two, next) },
    )
}

/// The answers of a thread's calls, which stand in the journal in their order.
fn answers_in(
    alloc: Global,
    journal: &Journal<SequencerOrder>,
    number: u8,
) -> Result<Vec<Answer>, Fail> {
    let mut answers = Vec::new(alloc);
    for event in journal.events() {
        if let Event::Call {
            thread,
            index,
            answer,
            ..
        } = *event
        {
            if thread == number {
                if index as usize != answers.len() {
                    return Err("out of order".into());
                }
                answers.push(answer)?;
            }
        }
    }
    Ok(answers)
}

#[test]
fn two_threads_make_1000_calls(rt: HostRuntime) -> Result<(), Fail> {
    let alloc = rt.alloc();
    let (group, mut first) = group_of::<SequencerOrder>(alloc, 2, 500, false)?;
    let second = group.split(&mut first);
    let (one, two) = two_callers(&rt, alloc, &group, first, second, 0);
    let Caller { answers, mut pass } = one;
    group.join(&mut pass, two.pass);
    let journal = group.close(pass);
    let all = [answers, two.answers];
    for number in 0..2 {
        let stand = answers_in(alloc, &journal, number)?;
        assert_eq!(rt; stand.len(), 500);
        assert_eq!(rt; all[number as usize], Some(stand));
    }
    Ok(())
}

type Pair = (Caller, Caller);

fn four_callers<R: Threads + Wait + Sync>(
    rt: &R,
    alloc: Global,
    group: &Group,
    low: (Leave, Leave),
    high: (Leave, Leave),
) -> (Pair, Pair)
    requires low { IsPassOf group.now low.0 × IsPassOf group.now low.1 }
    requires high { IsPassOf group.now high.0 × IsPassOf group.now high.1 }
    requires members { (plan_shared group.now).members ≡ 3 }
    requires threads { length (plan_shared group.now).threads ≡ 4 }
    ensures low { IsPassOf group.now result.0.0.pass × IsPassOf group.now result.0.1.pass }
    ensures high { IsPassOf group.now result.1.0.pass × IsPassOf group.now result.1.1.pass }
    ensures low_parts { (parts result.0.0.pass ≡ parts low.0) × (parts result.0.1.pass ≡ parts low.1) }
    ensures high_parts { (parts result.1.0.pass ≡ parts high.0) × (parts result.1.1.pass ≡ parts high.1) }
{
    let (a, b) = low;
    let (c, d) = high;
    join(
        rt,
        move || -> Pair
            requires { IsPassOf group.now a × IsPassOf group.now b × ((plan_shared group.now).members ≡ 3) × (length (plan_shared group.now).threads ≡ 4) }
            ensures { IsPassOf group.entry.now result.0.pass × IsPassOf group.entry.now result.1.pass × (parts result.0.pass ≡ parts a) × (parts result.1.pass ≡ parts b) }
        { two_callers(rt, alloc, group, a, b, 0) },
        move || -> Pair
            requires { IsPassOf group.now c × IsPassOf group.now d × ((plan_shared group.now).members ≡ 3) × (length (plan_shared group.now).threads ≡ 4) }
            ensures { IsPassOf group.entry.now result.0.pass × IsPassOf group.entry.now result.1.pass × (parts result.0.pass ≡ parts c) × (parts result.1.pass ≡ parts d) }
        { two_callers(rt, alloc, group, c, d, 2) },
    )
}

#[test]
fn four_threads_make_1000_calls(rt: HostRuntime) -> Result<(), Fail> {
    let alloc = rt.alloc();
    let (group, mut first) = group_of::<SequencerOrder>(alloc, 4, 250, false)?;
    let second = group.split(&mut first);
    let third = group.split(&mut first);
    let fourth = group.split(&mut first);
    let (low, high) = four_callers(&rt, alloc, &group, (first, second), (third, fourth));
    let ((one, two), (three, four)) = (low, high);
    let Caller { answers, mut pass } = one;
    group.join(&mut pass, two.pass);
    group.join(&mut pass, three.pass);
    group.join(&mut pass, four.pass);
    let journal = group.close(pass);
    let all = [answers, two.answers, three.answers, four.answers];
    for number in 0..4 {
        let stand = answers_in(alloc, &journal, number)?;
        assert_eq!(rt; stand.len(), 250);
        assert_eq!(rt; all[number as usize], Some(stand));
    }
    Ok(())
}
