//! The state of a whole group: which moves are enabled, and one of them prepared, then committed without memory.
ghost use Rattle.std.specs.Prelude.{ℕ, true, false, Some, None, ◌≡◌, ◌<◌, ◌≤◌, ◌+◌, ◌∷◌, [], List, IfOk, IfSome, IsTrue, IsSome, is_some, ◌↔◌, map, length, option_copied, slice_get};
ghost use Rattle.upd_base.specs.declared.event.Event.{Event};

use crate::commit::{commit_at, count, place_of, put_on, take_off};
use crate::fresh::{fresh_members, no_calls};
use crate::moves::Move;
use crate::prepared::PreparedMove;
use crate::ready::{prepare_at, reserve_for};
use crate::visit::Visit;
use fifo_link::Links;
use group_projection::inputs_are_growing;
use member_core::{Input, Member};
use order_trait::Ordering;
use std::alloc::Global;
use upd_base::{Answer, Event, Frame, MemberId, NoMemory, Plan};

/// The members of a group, the links between them, and how many calls of each thread of its plan were made.
#[derive(Drop)]
pub struct World<O: Ordering> {
    members: Vec<Member<O>>,
    links: Links,
    made: Vec<u16>,
}

impl<O: Ordering> World<O> {
    ghost use Rattle.upd_base.specs.Plan.{Planned, planned};
    ghost use Rattle.group_run.specs.Run.{Events, next_frame};
    ghost use Rattle.group_run.specs.Laws.{ServesPlan};
    ghost use Rattle.member_rules.specs.Kept.{Kept, rules_of};
    ghost use Rattle.member_core.specs.Member.{kept_by};
    ghost use Rattle.member_core.specs.Prepared.{answer_of};
    ghost use Rattle.group_world.specs.Seen.{IsWorldOf, FrameFits, seen_by, frames_on, made_by};
    ghost use Rattle.group_world.specs.Moves.{MayMove, can_receive, is_call_move, is_enabled, is_ready, IsMove, HasThreadOf};
    ghost use Rattle.group_world.specs.Stands.{Stands, IsShort};
    ghost use Rattle.member_core.specs.Input.{MayHave, is_call};
    ghost use Rattle.group_world.specs.Prepared.{IsReady, IsAfter, HasRoomAt, event_of};
    ghost use Rattle.group_world.specs.Makes.{IsInput, IsPrepared, IsEventOf};

    /// The world of a plan before any event. The kinds of the plan are served.
    pub fn opening(alloc: Global, plan: &Plan) -> Result<World<O>, NoMemory>
        requires first_served { O.is_served plan.now.first ≡ true }
        requires served { ServesPlan (rules_of O.Ordering) plan.now }
        ensures of_plan { IfOk result (λ w. IsWorldOf O.Ordering plan.now (seen_by w)) }
        ensures stands { IfOk result (λ w. Stands O.Ordering plan.now (seen_by w) []) }
    {
        plan.keeps_limits();
        Ok(World {
            members: fresh_members(alloc, plan)?,
            links: Links::new(alloc, plan.members())?,
            made: no_calls(alloc, plan.threads())?,
        })
    }

    /// Whether a move may come next. Takes no memory.
    pub fn enabled(&self, plan: &Plan, choice: &Move) -> bool
        requires { IsWorldOf O.Ordering plan.now (seen_by self.now) }
        ensures value { result ≡ is_enabled plan.now (seen_by self.now) choice.now }
        ensures run { (past : Events) → Stands O.Ordering plan.now (seen_by self.now) past → IsTrue result ↔ MayMove (rules_of O.Ordering) plan.now past choice.now }
    {
        match choice {
            Move::Call(thread) => self.may_call(plan, *thread),
            Move::Receive(from, to) => self.may_receive(*from, *to),
            Move::Release(at) => self.may_release(*at),
        }
    }

    fn may_call(&self, plan: &Plan, thread: u8) -> bool
        requires { length (seen_by self.now).made ≡ length plan.now.threads }
        ensures { result ≡ is_some (planned plan.now thread (made_by (seen_by self.now) thread)) }
    {
        thread < plan.threads() && self.made[thread as usize] < plan.steps(thread)
    }

    fn may_receive(&self, from: MemberId, to: MemberId) -> bool
        requires { length (seen_by self.now).members ≡ (seen_by self.now).width }
        ensures { result ≡ can_receive (seen_by self.now) from to }
    {
        let members = self.links.members();
        if from.get() >= members || to.get() >= members {
            return false;
        }
        !self.members[to.get() as usize].crashed() && self.links.next(from, to).is_some()
    }

    fn may_release(&self, at: MemberId) -> bool
        ensures value { result ≡ is_ready (slice_get (seen_by self.now).members at) }
        ensures versions { (k : Kept _) → slice_get (seen_by self.now).members at ≡ Some k → length k.modules ≡ k.repl.version + 1 }
    {
        if at.get() as usize >= self.members.len() {
            return false;
        }
        let member = &self.members[at.get() as usize];
        !member.crashed() && member.ready()
    }

    /// Prepares an enabled move with all its memory. The world stays as it is, also after want of memory.
    pub fn prepare(
        &mut self,
        alloc: Global,
        plan: &Plan,
        choice: Move,
    ) -> Result<PreparedMove<O>, NoMemory>
        requires of_plan { IsWorldOf O.Ordering plan.now (seen_by self.old) }
        requires enabled { is_enabled plan.now (seen_by self.old) choice ≡ true }
        ensures kept { seen_by self.new ≡ seen_by self.old }
        ensures ready { IfOk result (λ p. IsReady O.Ordering self.new p) }
        ensures event { IfOk result (λ p. IsMove choice (event_of p)) }
        ensures of_plan { IfOk result (λ p. (new : Rattle.group_world.specs.Seen.Seen _) → IsAfter p (seen_by self.old) new → IsWorldOf O.Ordering plan.now new) }
        ensures stands { IfOk result (λ p. (past : Events) (new : Rattle.group_world.specs.Seen.Seen _) → Stands O.Ordering plan.now (seen_by self.old) past → IsShort past → IsAfter p (seen_by self.old) new → Stands O.Ordering plan.now new (event_of p ∷ past)) }
    {
        inputs_are_growing();
        let visit = self.visit_for(alloc, plan, &choice)?;
        self.prepare_event(alloc, choice, visit)
    }

    /// What an enabled move gives, and to which member.
    fn visit_for(&self, alloc: Global, plan: &Plan, choice: &Move) -> Result<Visit, NoMemory>
        requires of_plan { IsWorldOf O.Ordering plan.now (seen_by self.now) }
        requires enabled { is_enabled plan.now (seen_by self.now) choice.now ≡ true }
        ensures input { IfOk result (λ v. IsInput plan.now (seen_by self.now) choice.now v.at v.input) }
        ensures at_fits { IfOk result (λ v. v.at < length (seen_by self.now).members) }
        ensures may { IfOk result (λ v. (k : Kept _) → slice_get (seen_by self.now).members v.at ≡ Some k → MayHave O.Ordering k v.input) }
    {
        match choice {
            Move::Call(thread) => {
                let step = plan.step(*thread, self.made[*thread as usize]);
                Ok(Visit {
                    at: step.at,
                    input: Input::Call(step.call.copy()?),
                })
            }
            Move::Receive(from, to) => {
                let frame = self.links.next(*from, *to).unwrap().copy(alloc)?;
                Ok(Visit {
                    at: *to,
                    input: Input::Receive { from: *from, frame },
                })
            }
            Move::Release(at) => Ok(Visit {
                at: *at,
                input: Input::Release,
            }),
        }
    }

    /// Prepares the event of a move that gives this input to this member, with the room for what it sends.
    fn prepare_event(
        &mut self,
        alloc: Global,
        choice: Move,
        visit: Visit,
    ) -> Result<PreparedMove<O>, NoMemory>
        requires width { length (seen_by self.old).members ≡ (seen_by self.old).width }
        requires at_fits { visit.at < (seen_by self.old).width }
        requires may { (k : Kept _) → slice_get (seen_by self.old).members visit.at ≡ Some k → MayHave O.Ordering k visit.input }
        requires thread { HasThreadOf choice (seen_by self.old).made }
        requires call { is_call visit.input ≡ is_call_move choice }
        ensures kept { seen_by self.new ≡ seen_by self.old }
        ensures ready { IfOk result (λ p. HasRoomAt O.Ordering self.new visit.at p.member) }
        ensures event { IfOk result (λ p. IsEventOf (seen_by self.old) choice visit.at (answer_of p.member) (event_of p)) }
        ensures prepared { IfOk result (λ p. (k : Kept _) → slice_get (seen_by self.old).members visit.at ≡ Some k → IsPrepared O.Ordering k visit.input p.member) }
    {
        let at = visit.at;
        let member = prepare_at(alloc, &mut self.members, at, &visit.input)?;
        reserve_for(&mut self.links, at, member.sent())?;
        let event = self.event_for(choice, at, member.answer());
        Ok(PreparedMove { event, member })
    }

    /// The event of a move at a member that answers so.
    fn event_for(&self, choice: Move, at: MemberId, answer: Option<Answer>) -> Event
        requires thread { HasThreadOf choice (seen_by self.now).made }
        requires answered { is_some answer ≡ is_call_move choice }
        ensures { IsEventOf (seen_by self.now) choice at answer result }
    {
        match choice {
            Move::Call(thread) => Event::Call {
                thread,
                index: self.made[thread as usize],
                member: at,
                answer: answer.unwrap(),
            },
            Move::Receive(from, to) => Event::Receive { from, to },
            Move::Release(at) => Event::Release { at },
        }
    }

    /// Commits what was prepared on this world, with no changing call between. Takes no memory.
    pub fn commit(&mut self, prepared: PreparedMove<O>) -> Event
        requires { IsReady O.Ordering self.old prepared }
        ensures event { result ≡ event_of prepared }
        ensures after { IsAfter prepared (seen_by self.old) (seen_by self.new) }
    {
        let event = prepared.event;
        let at = place_of(&event);
        let sent = commit_at(&mut self.members, at, prepared.member);
        take_off(&mut self.links, &event);
        count(&mut self.made, &event);
        put_on(&mut self.links, at, sent);
        event
    }

    /// Makes an enabled move. After want of memory the world is as it was.
    pub fn step(&mut self, alloc: Global, plan: &Plan, choice: Move) -> Result<Event, NoMemory>
        requires of_plan { IsWorldOf O.Ordering plan.now (seen_by self.old) }
        requires enabled { is_enabled plan.now (seen_by self.old) choice ≡ true }
        ensures of_plan { IsWorldOf O.Ordering plan.now (seen_by self.new) }
        ensures event { IfOk result (λ e. IsMove choice e) }
        ensures stands { IfOk result (λ e. (past : Events) → Stands O.Ordering plan.now (seen_by self.old) past → IsShort past → Stands O.Ordering plan.now (seen_by self.new) (e ∷ past)) }
        ensures err { Rattle.std.specs.Prelude.OnErr result (seen_by self.new ≡ seen_by self.old) }
    {
        let prepared = self.prepare(alloc, plan, choice)?;
        Ok(self.commit(prepared))
    }

    /// A member, which is below the number of members by condition.
    pub fn member(&self, m: MemberId) -> &Member<O>
        requires { m < length (seen_by self.now).members }
        ensures value { slice_get (seen_by self.now).members m ≡ Some (kept_by result.now) }
    {
        &self.members[m.get() as usize]
    }

    /// How many calls of a thread were made.
    pub fn made(&self, thread: u8) -> u16
        requires { thread < length (seen_by self.now).made }
        ensures { result ≡ made_by (seen_by self.now) thread }
    {
        self.made[thread as usize]
    }

    /// The frame that is next on a link: None exactly where all that was sent on it was received. Members are in range by
    /// condition. Takes no memory.
    pub fn frame(&self, from: MemberId, to: MemberId) -> Option<&Frame>
        requires from_fits { from < (seen_by self.now).width }
        requires to_fits { to < (seen_by self.now).width }
        ensures value { option_copied result ≡ slice_get (frames_on (seen_by self.now) from to) 0 }
        ensures fits { (plan : Planned) → IsWorldOf O.Ordering plan (seen_by self.now) → IfSome (option_copied result) (FrameFits plan.members) }
    {
        self.links.next(from, to)
    }
}
