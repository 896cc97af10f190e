//! The recorded run as a data structure: its ghost fields keep that the events are a run of the plan, within its
//! bound, and that the world is the one that they leave.
ghost use Rattle.std.specs.Prelude.{ℕ, true, false, Some, None, ◌≡◌, ◌<◌, ◌≤◌, ◌∷◌, [], ◌++◌, List, length, reverse, IfOk, IfErr, IfSome, OnOk, OnErr, IsTrue, IsSome, ◌↔◌, slice_get, option_copied, is_some, map};
ghost use Rattle.order_trait.specs.Runs.{Order};
ghost use Rattle.upd_base.specs.Plan.{bound, planned, steps_of};
ghost use Rattle.upd_base.specs.declared.event.Event.{Event};
ghost use Rattle.upd_base.specs.declared.event.Event.TheVariants.{Receive, Release};
ghost use Rattle.member_rules.specs.Kept.{rules_of};
ghost use Rattle.group_run.specs.Run.{IsGroupRun};
ghost use Rattle.group_world.specs.Seen.{IsWorldOf, FrameFits, seen_by};
ghost use Rattle.group_world.specs.Stands.{Stands};
ghost use Rattle.run_journal.specs.Asked.{AreAsked};

use crate::faults::{CallFault, ReceiveFault, ReleaseFault};
use crate::making::{advance, answer_of, compare, make_room, no_lists, note};
use group_world::{Move, World};
use order_trait::Ordering;
use std::alloc::Global;
use upd_base::{Answer, Call, Event, Frame, Kind, Log, MemberId, NoMemory, Plan, Step, member_at};

/// The recorded run of a plan: its events from the opening, which number at most the plan's bound, and the world that they
/// leave.
///
/// Threads, members and places are in range by condition. Calls that read take no memory. A refused call has changed
/// nothing, also where it wanted memory.
#[derive(Drop)]
pub struct Journal<O: Ordering> {
    plan: Plan,
    limit: u64,
    events: Vec<Event>,
    asked: Vec<Vec<u16>>,
    world: World<O>,
    ghost limit_is: { limit ≡ bound plan },
    ghost few: { length events.items ≤ bound plan },
    ghost of_plan: { IsWorldOf O.Ordering plan (seen_by world) },
    ghost stands: { ∥ Stands O.Ordering plan (seen_by world) (reverse events.items) ∥₁ },
    ghost asked_are: { AreAsked (rules_of O.Ordering) plan (reverse events.items) (map (λ v. v.items) asked.items) },
}

impl<O: Ordering> Journal<O> {
    ghost use Rattle.group_run.specs.Group.{Group};
    ghost use Rattle.group_run.specs.Laws.{ServesPlan};
    ghost use Rattle.group_run.specs.Run.{Events, calls_made, log_in, version_in, kind_in, crashed_in, next_frame, IsRelease};
    ghost use Rattle.group_run.specs.Settled.{IsSettled};
    ghost use Rattle.run_journal.specs.declared.faults.ReceiveFault.TheVariants.{Crashed, Nothing};
    ghost use Rattle.run_journal.specs.Journal.{plan_of, events_of, past_of};
    ghost use Rattle.run_journal.specs.Asked.{asked_in, accepted_by, version_asked};
    ghost use Rattle.run_journal.specs.Causes.{next_call, answer_next, call_event, would_be_full, open_frame, IsMade, IsSpent, CallCause, ReceiveCause, ReceiveNextCause, ReleaseCause};

    /// The journal of a plan whose kinds are served, before any event.
    pub fn begin(alloc: Global, plan: Plan) -> Result<Journal<O>, NoMemory>
        requires first_served { O.is_served plan.first ≡ true }
        requires served { ServesPlan (rules_of O.Ordering) plan }
        ensures plan { IfOk result (λ j. plan_of j ≡ plan) }
        ensures empty { IfOk result (λ j. past_of j ≡ []) }
    {
        let world = World::opening(alloc, &plan)?;
        let asked = no_lists(alloc, plan.members())?;
        let limit = plan.bound();
        Ok(Journal {
            plan,
            limit,
            events: Vec::new(alloc),
            asked,
            world,
        })
    }

    /// The plan of the run.
    pub fn plan(&self) -> &Plan
        ensures value { result.now ≡ plan_of self.now }
        ensures run { IsGroupRun (rules_of O.Ordering) (plan_of self.now) (past_of self.now) }
        ensures first_served { O.is_served (plan_of self.now).first ≡ true }
        ensures served { ServesPlan (rules_of O.Ordering) (plan_of self.now) }
    {
        &self.plan
    }

    /// How many events were made: at most the plan's bound.
    pub fn len(&self) -> u64
        ensures value { result ≡ length (past_of self.now) }
        ensures few { result ≤ bound (plan_of self.now) }
    {
        self.events.len() as u64
    }

    /// The event at this place, counted from 0.
    pub fn event(&self, i: u64) -> &Event
        requires { i < length (events_of self.now) }
        ensures { slice_get (events_of self.now) i ≡ Some result.now }
    {
        &self.events[i as usize]
    }

    /// All events, in the order in which they were made.
    pub fn events(&self) -> &[Event]
        ensures { result.now ≡ events_of self.now }
    {
        self.events.as_slice()
    }

    /// Makes the next call of a thread.
    pub fn call(&mut self, alloc: Global, thread: u8) -> Result<Answer, CallFault>
        requires { thread < length (plan_of self.old).threads }
        ensures plan { plan_of self.new ≡ plan_of self.old }
        ensures made { IfOk result (λ a. IsMade (call_event (plan_of self.old) (past_of self.old) thread (next_call (plan_of self.old) (past_of self.old) thread) a) (past_of self.old) (past_of self.new)) }
        ensures answer { IfOk result (λ a. answer_next (rules_of O.Ordering) (plan_of self.old) (past_of self.old) (next_call (plan_of self.old) (past_of self.old) thread) ≡ Some a) }
        ensures room { OnOk result (length (past_of self.old) < bound (plan_of self.old)) }
        ensures cause { IfErr result (CallCause (rules_of O.Ordering) (plan_of self.old) (past_of self.old) thread) }
        ensures err { OnErr result (past_of self.new ≡ past_of self.old) }
    {
        let Some(step) = self.next_step(thread) else {
            return Err(CallFault::PlanDone);
        };
        let at = step.at;
        if self.is_spent() {
            return Err(CallFault::Spent);
        }
        let version = self.world.member(at).version();
        make_room(&mut self.asked, at)?;
        let choice = Move::Call(thread);
        let event = advance(alloc, &self.plan, &mut self.world, &mut self.events, choice)?;
        let answer = answer_of(&event);
        note(&mut self.asked, at, version, &answer);
        Ok(answer)
    }

    /// The frame that a receipt would take: None exactly where that receipt isn't enabled.
    pub fn next_frame(&self, from: MemberId, to: MemberId) -> Option<&Frame>
        requires from_fits { from < (plan_of self.now).members }
        requires to_fits { to < (plan_of self.now).members }
        ensures value { option_copied result ≡ open_frame (rules_of O.Ordering) (plan_of self.now) (past_of self.now) from to }
        ensures fits { IfSome (option_copied result) (FrameFits (plan_of self.now).members) }
    {
        if self.crashed(to) {
            return None;
        }
        self.world.frame(from, to)
    }

    /// Makes a receipt on a link, where the frame that was got is the link's next.
    pub fn receive(
        &mut self,
        alloc: Global,
        from: MemberId,
        to: MemberId,
        got: &Frame,
    ) -> Result<(), ReceiveFault>
        requires from_fits { from < (plan_of self.old).members }
        requires to_fits { to < (plan_of self.old).members }
        ensures plan { plan_of self.new ≡ plan_of self.old }
        ensures made { OnOk result (past_of self.new ≡ Receive from to ∷ past_of self.old) }
        ensures same { OnOk result (open_frame (rules_of O.Ordering) (plan_of self.old) (past_of self.old) from to ≡ Some got.now) }
        ensures room { OnOk result (length (past_of self.old) < bound (plan_of self.old)) }
        ensures cause { IfErr result (ReceiveCause (rules_of O.Ordering) (plan_of self.old) (past_of self.old) from to got.now) }
        ensures err { OnErr result (past_of self.new ≡ past_of self.old) }
    {
        let Some(sent) = self.next_frame(from, to) else {
            return Err(self.closed(to));
        };
        compare(alloc, sent, got)?;
        if self.is_spent() {
            return Err(ReceiveFault::Spent);
        }
        let choice = Move::Receive(from, to);
        advance(alloc, &self.plan, &mut self.world, &mut self.events, choice)?;
        Ok(())
    }

    /// Receives the frame that a link has next, as it was sent; false exactly where that receipt isn't enabled.
    pub fn receive_next(
        &mut self,
        alloc: Global,
        from: MemberId,
        to: MemberId,
    ) -> Result<bool, ReleaseFault>
        requires from_fits { from < (plan_of self.old).members }
        requires to_fits { to < (plan_of self.old).members }
        ensures plan { plan_of self.new ≡ plan_of self.old }
        ensures made { IfOk result (λ b. IsTrue b → past_of self.new ≡ Receive from to ∷ past_of self.old) }
        ensures enabled { IfOk result (λ b. b ≡ is_some (open_frame (rules_of O.Ordering) (plan_of self.old) (past_of self.old) from to)) }
        ensures room { IfOk result (λ b. IsTrue b → length (past_of self.old) < bound (plan_of self.old)) }
        ensures none { IfOk result (λ b. b ≡ false → past_of self.new ≡ past_of self.old) }
        ensures cause { IfErr result (ReceiveNextCause (rules_of O.Ordering) (plan_of self.old) (past_of self.old) from to) }
        ensures err { OnErr result (past_of self.new ≡ past_of self.old) }
    {
        let Some(_sent) = self.next_frame(from, to) else {
            return Ok(false);
        };
        if self.is_spent() {
            return Err(ReleaseFault::Spent);
        }
        let choice = Move::Receive(from, to);
        advance(alloc, &self.plan, &mut self.world, &mut self.events, choice)?;
        Ok(true)
    }

    /// Releases the first held frame whose version the member has reached; false exactly where that isn't enabled.
    pub fn release(&mut self, alloc: Global, at: MemberId) -> Result<bool, ReleaseFault>
        requires { at < (plan_of self.old).members }
        ensures plan { plan_of self.new ≡ plan_of self.old }
        ensures made { IfOk result (λ b. IsTrue b → past_of self.new ≡ Release at ∷ past_of self.old) }
        ensures enabled { IfOk result (λ b. IsTrue b ↔ IsRelease (rules_of O.Ordering) (plan_of self.old) (past_of self.old) at) }
        ensures room { IfOk result (λ b. IsTrue b → length (past_of self.old) < bound (plan_of self.old)) }
        ensures none { IfOk result (λ b. b ≡ false → past_of self.new ≡ past_of self.old) }
        ensures cause { IfErr result (ReleaseCause (rules_of O.Ordering) (plan_of self.old) (past_of self.old) at) }
        ensures err { OnErr result (past_of self.new ≡ past_of self.old) }
    {
        let choice = Move::Release(at);
        if !self.world.enabled(&self.plan, &choice) {
            return Ok(false);
        }
        if self.is_spent() {
            return Err(ReleaseFault::Spent);
        }
        advance(alloc, &self.plan, &mut self.world, &mut self.events, choice)?;
        Ok(true)
    }

    /// Whether the thread has a next call, and it would be answered as full.
    pub fn would_fill(&self, thread: u8) -> bool
        requires { thread < length (plan_of self.now).threads }
        ensures { result ≡ would_be_full (answer_next (rules_of O.Ordering) (plan_of self.now) (past_of self.now) (next_call (plan_of self.now) (past_of self.now) thread)) }
    {
        match self.next_step(thread) {
            Some(step) => self.fills(step),
            None => false,
        }
    }

    /// Whether every planned call is made, and nothing can be received or released.
    pub fn settled(&self) -> bool
        ensures { IsTrue result ↔ IsSettled (rules_of O.Ordering) (plan_of self.now) (past_of self.now) }
    {
        if !self.calls_are_made() {
            return false;
        }
        if !self.links_are_empty() {
            return false;
        }
        self.none_is_ready()
    }

    /// How many calls of a thread were made.
    pub fn made(&self, thread: u8) -> u16
        requires { thread < length (plan_of self.now).threads }
        ensures { result ≡ calls_made thread (past_of self.now) }
    {
        self.world.made(thread)
    }

    /// What a member delivered.
    pub fn log(&self, m: MemberId) -> &Log
        requires { m < (plan_of self.now).members }
        ensures { result.now.entries ≡ log_in (rules_of O.Ordering) (plan_of self.now) (past_of self.now) m }
    {
        self.world.member(m).log()
    }

    /// Its version.
    pub fn version(&self, m: MemberId) -> u16
        requires { m < (plan_of self.now).members }
        ensures { result ≡ version_in (rules_of O.Ordering) (plan_of self.now) (past_of self.now) m }
    {
        self.world.member(m).version()
    }

    /// The kind of its version.
    pub fn kind(&self, m: MemberId) -> Kind
        requires { m < (plan_of self.now).members }
        ensures { result ≡ kind_in (rules_of O.Ordering) (plan_of self.now) (past_of self.now) m }
    {
        self.world.member(m).kind()
    }

    /// Whether it has crashed.
    pub fn crashed(&self, m: MemberId) -> bool
        requires { m < (plan_of self.now).members }
        ensures { result ≡ crashed_in (rules_of O.Ordering) (plan_of self.now) (past_of self.now) m }
    {
        self.world.member(m).crashed()
    }

    /// Whether a release is enabled at a member.
    pub fn ready(&self, at: MemberId) -> bool
        requires { at < (plan_of self.now).members }
        ensures { IsTrue result ↔ IsRelease (rules_of O.Ordering) (plan_of self.now) (past_of self.now) at }
    {
        self.world.enabled(&self.plan, &Move::Release(at))
    }

    /// The version in which a member's item of this number was accepted. It was accepted by condition.
    pub fn asked_in(&self, m: MemberId, number: u32) -> u16
        requires fits { m < (plan_of self.now).members }
        requires accepted { number < accepted_by (rules_of O.Ordering) (plan_of self.now) (past_of self.now) m }
        ensures { result ≡ asked_in (rules_of O.Ordering) (plan_of self.now) (past_of self.now) m number }
    {
        self.asked[m.get() as usize][number as usize]
    }

    /// The version in which a member's item of this number was accepted; None exactly where it accepted none of this number.
    pub fn version_asked(&self, m: MemberId, number: u32) -> Option<u16>
        requires { m < (plan_of self.now).members }
        ensures { result ≡ version_asked (rules_of O.Ordering) (plan_of self.now) (past_of self.now) m number }
    {
        let versions = &self.asked[m.get() as usize];
        if number as usize >= versions.len() {
            return None;
        }
        Some(versions[number as usize])
    }

    /// Whether the journal holds as many events as the plan's bound.
    fn is_spent(&self) -> bool
        ensures spent { IsTrue result → IsSpent (plan_of self.now) (past_of self.now) }
        ensures room { result ≡ false → length (past_of self.now) < bound (plan_of self.now) }
    {
        self.events.len() as u64 >= self.limit
    }

    /// The planned call that a thread has next.
    fn next_step(&self, thread: u8) -> Option<&Step>
        requires { thread < length (plan_of self.now).threads }
        ensures { option_copied result ≡ next_call (plan_of self.now) (past_of self.now) thread }
    {
        let made = self.world.made(thread);
        if made >= self.plan.steps(thread) {
            return None;
        }
        Some(self.plan.step(thread, made))
    }

    /// Whether a call would be answered as full.
    fn fills(&self, step: &Step) -> bool
        requires { step.now.at < (plan_of self.now).members }
        ensures { result ≡ would_be_full (answer_next (rules_of O.Ordering) (plan_of self.now) (past_of self.now) (Some step.now)) }
    {
        let member = self.world.member(step.at);
        match &step.call {
            Call::Send(_) => member.would_fill(),
            Call::Change(_) | Call::Suspect(_) | Call::Trust(_) | Call::Crash => false,
        }
    }

    /// Why nothing can be received at a member, on a link that has no frame for it.
    fn closed(&self, to: MemberId) -> ReceiveFault
        requires { to < (plan_of self.now).members }
        ensures crashed { crashed_in (rules_of O.Ordering) (plan_of self.now) (past_of self.now) to ≡ true → result ≡ Crashed }
        ensures nothing { crashed_in (rules_of O.Ordering) (plan_of self.now) (past_of self.now) to ≡ false → result ≡ Nothing }
    {
        if self.crashed(to) {
            ReceiveFault::Crashed
        } else {
            ReceiveFault::Nothing
        }
    }

    fn calls_are_made(&self) -> bool
        ensures { IsTrue result ↔ ((thread : ℕ) → next_call (plan_of self.now) (past_of self.now) thread ≡ None) }
    {
        for thread in 0..self.plan.threads() {
            if self.next_step(thread).is_some() {
                return false;
            }
        }
        true
    }

    /// Whether nothing can be received from a member.
    fn are_empty_from(&self, from: MemberId) -> bool
        requires { from < (plan_of self.now).members }
        ensures { IsTrue result ↔ ((to : ℕ) → to < (plan_of self.now).members → open_frame (rules_of O.Ordering) (plan_of self.now) (past_of self.now) from to ≡ None) }
    {
        for i in 0..self.plan.members() {
            if self.next_frame(from, member_at(i)).is_some() {
                return false;
            }
        }
        true
    }

    fn links_are_empty(&self) -> bool
        ensures { IsTrue result ↔ ((from to : ℕ) → from < (plan_of self.now).members → to < (plan_of self.now).members → open_frame (rules_of O.Ordering) (plan_of self.now) (past_of self.now) from to ≡ None) }
    {
        for i in 0..self.plan.members() {
            if !self.are_empty_from(member_at(i)) {
                return false;
            }
        }
        true
    }

    fn none_is_ready(&self) -> bool
        ensures { IsTrue result ↔ ((at : ℕ) → IsRelease (rules_of O.Ordering) (plan_of self.now) (past_of self.now) at → ⊥) }
    {
        for i in 0..self.plan.members() {
            if self.ready(member_at(i)) {
                return false;
            }
        }
        true
    }
}
