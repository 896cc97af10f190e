//! A journal shared by threads: each call takes one turn under the lock and makes at most one event, and a pass knows
//! which events its holder has seen and which are its own.
ghost use Rattle.std.specs.Prelude.{◌≡◌, ◌≢◌, ◌+◌, ◌-◌, ◌<◌, ◌≤◌, ◌↔◌, ◌++◌, true, false, Some, [], length, IfOk, IfErr, IfSome, OnOk, OnErr, IsTrue};
ghost use Rattle.upd_base.specs.Plan.{bound};
ghost use Rattle.upd_base.specs.declared.event.Event.TheVariants.{Receive, Release};
ghost use Rattle.upd_base.specs.declared.answer.Answer.TheVariants.{Full};
ghost use Rattle.member_rules.specs.Kept.{rules_of};
ghost use Rattle.group_run.specs.Run.{IsRelease};
ghost use Rattle.group_run.specs.Settled.{IsSettled};
ghost use Rattle.group_world.specs.Seen.{FrameFits};
ghost use Rattle.run_journal.specs.Journal.{plan_of, events_of, past_of};
ghost use Rattle.run_journal.specs.Causes.{open_frame, CallCause, ReceiveCause, ReleaseCause};
ghost use Rattle.turn_lock.specs.declared.pass.TheConstants.{PARTS};
ghost use Rattle.turn_lock.specs.Lists.{IsPrefix, AddsAtMostOne, longer};
ghost use Rattle.turn_lock.specs.Places.{merged, new_places};
ghost use Rattle.turn_lock.specs.Pass.{own, parts, noted, IsTurning};
ghost use Rattle.turn_lock.specs.TurnLock.{IsPassOf as IsLockPassOf};
ghost use Rattle.live_group.specs.Recorded.{entries, events_in, AreBehind};
ghost use Rattle.live_group.specs.Calls.{IfAnswered, IsNextAnswer, OnNotNow, UnlessAnswered, next_event, would_fill};
ghost use Rattle.live_group.specs.Pass.{events_seen, past_seen, past_before, places};

use crate::kept_journal::KeptJournal;
use crate::offer::Offer;
use order_trait::Ordering;
use run_journal::{CallFault, Journal, ReceiveFault, ReleaseFault};
use std::alloc::Global;
use std::sync::Wait;
use turn_lock::{Pass, Turn, TurnLock};
use upd_base::{Frame, MemberId, NoMemory};

/// A journal that threads share, under the lock with history.
#[derive(Drop)]
pub struct LiveGroup<O: Ordering> {
    lock: TurnLock<KeptJournal<O>>,
}

/// The leave to make calls on one group, and what its holder knows: the events that it has seen, and the places of its own.
pub type GroupPass<O> = Pass<KeptJournal<O>>;

impl<O: Ordering> LiveGroup<O> {
    ghost use Rattle.live_group.specs.SharedGroup.{shared, plan_shared, IsPassOf};
    ghost use Rattle.live_group.specs.Turns.{MakesOne};

    /// Shares a journal. The first pass has seen its events, owns none and has all `PARTS`. For want of memory the journal
    /// comes back.
    pub fn share(
        alloc: Global,
        journal: Journal<O>,
    ) -> Result<(LiveGroup<O>, GroupPass<O>), Journal<O>>
        ensures shared { IfOk result (λ r. shared r.0 ≡ journal) }
        ensures of { IfOk result (λ r. IsPassOf r.0 r.1) }
        ensures seen { IfOk result (λ r. events_seen r.1 ≡ events_of journal) }
        ensures own { IfOk result (λ r. places r.1 ≡ []) }
        ensures parts { IfOk result (λ r. parts r.1 ≡ PARTS) }
        ensures refused { IfErr result (λ j. j ≡ journal) }
    {
        match TurnLock::make(alloc, KeptJournal::of(journal)) {
            Ok((lock, pass)) => Ok((LiveGroup { lock }, pass)),
            Err(KeptJournal { journal, .. }) => Err(journal),
        }
    }

    /// Makes the thread's next call, unless its answer would be that the member is full.
    pub fn call<R: Wait>(
        &self,
        rt: &R,
        alloc: Global,
        pass: &mut GroupPass<O>,
        thread: u8,
    ) -> Result<Offer, CallFault>
        requires of { IsPassOf self.now pass.old }
        requires thread { thread < length (plan_shared self.now).threads }
        ensures of { IsPassOf self.now pass.new }
        ensures parts { parts pass.new ≡ parts pass.old }
        ensures seen { IsPrefix (events_seen pass.old) (events_seen pass.new) }
        ensures made { IfAnswered result (λ a. MakesOne (next_event (plan_shared self.now) (past_before pass.new) thread a) pass.old pass.new) }
        ensures answer { IfAnswered result (IsNextAnswer (rules_of O.Ordering) (plan_shared self.now) (past_before pass.new) thread) }
        ensures never_full { IfAnswered result (λ a. a ≢ Full) }
        ensures room { IfAnswered result (λ _. length (past_before pass.new) < bound (plan_shared self.now)) }
        ensures unmade { UnlessAnswered result (places pass.new ≡ places pass.old) }
        ensures not_now { OnNotNow result (would_fill (rules_of O.Ordering) (plan_shared self.now) (past_seen pass.new) thread ≡ true) }
        ensures not_now_first { OnErr result (would_fill (rules_of O.Ordering) (plan_shared self.now) (past_seen pass.new) thread ≡ false) }
        ensures cause { IfErr result (CallCause (rules_of O.Ordering) (plan_shared self.now) (past_seen pass.new) thread) }
    {
        let mut journal = self.take_turn(rt, pass);
        if journal.would_fill(thread) {
            self.end_turn(pass, journal);
            return Ok(Offer::NotNow);
        }
        let answer = journal.call(alloc, thread);
        self.end_turn(pass, journal);
        Ok(Offer::Answered(answer?))
    }

    /// A copy of the frame that a receipt would take: None exactly where that receipt isn't enabled.
    pub fn fetch<R: Wait>(
        &self,
        rt: &R,
        alloc: Global,
        pass: &mut GroupPass<O>,
        from: MemberId,
        to: MemberId,
    ) -> Result<Option<Frame>, NoMemory>
        requires of { IsPassOf self.now pass.old }
        requires from_fits { from < (plan_shared self.now).members }
        requires to_fits { to < (plan_shared self.now).members }
        ensures of { IsPassOf self.now pass.new }
        ensures parts { parts pass.new ≡ parts pass.old }
        ensures seen { IsPrefix (events_seen pass.old) (events_seen pass.new) }
        ensures unmade { places pass.new ≡ places pass.old }
        ensures frame { IfOk result (λ f. f ≡ open_frame (rules_of O.Ordering) (plan_shared self.now) (past_seen pass.new) from to) }
        ensures fits { IfOk result (λ f. IfSome f (FrameFits (plan_shared self.now).members)) }
    {
        let journal = self.take_turn(rt, pass);
        let frame = copy_next(alloc, &journal, from, to);
        self.end_turn(pass, journal);
        frame
    }

    /// Makes a receipt on a link, where the frame that was got is the link's next.
    pub fn receive<R: Wait>(
        &self,
        rt: &R,
        alloc: Global,
        pass: &mut GroupPass<O>,
        from: MemberId,
        to: MemberId,
        got: &Frame,
    ) -> Result<(), ReceiveFault>
        requires of { IsPassOf self.now pass.old }
        requires from_fits { from < (plan_shared self.now).members }
        requires to_fits { to < (plan_shared self.now).members }
        ensures of { IsPassOf self.now pass.new }
        ensures parts { parts pass.new ≡ parts pass.old }
        ensures seen { IsPrefix (events_seen pass.old) (events_seen pass.new) }
        ensures made { OnOk result (MakesOne (Some (Receive from to)) pass.old pass.new) }
        ensures same { OnOk result (open_frame (rules_of O.Ordering) (plan_shared self.now) (past_before pass.new) from to ≡ Some got.now) }
        ensures room { OnOk result (length (past_before pass.new) < bound (plan_shared self.now)) }
        ensures unmade { OnErr result (places pass.new ≡ places pass.old) }
        ensures cause { IfErr result (ReceiveCause (rules_of O.Ordering) (plan_shared self.now) (past_seen pass.new) from to got.now) }
    {
        let mut journal = self.take_turn(rt, pass);
        let received = journal.receive(alloc, from, to, got);
        self.end_turn(pass, journal);
        received
    }

    /// Releases the first held frame whose version the member has reached; false exactly where that isn't enabled.
    pub fn release<R: Wait>(
        &self,
        rt: &R,
        alloc: Global,
        pass: &mut GroupPass<O>,
        at: MemberId,
    ) -> Result<bool, ReleaseFault>
        requires of { IsPassOf self.now pass.old }
        requires at { at < (plan_shared self.now).members }
        ensures of { IsPassOf self.now pass.new }
        ensures parts { parts pass.new ≡ parts pass.old }
        ensures seen { IsPrefix (events_seen pass.old) (events_seen pass.new) }
        ensures made { IfOk result (λ b. IsTrue b → MakesOne (Some (Release at)) pass.old pass.new) }
        ensures enabled { IfOk result (λ b. IsTrue b → IsRelease (rules_of O.Ordering) (plan_shared self.now) (past_before pass.new) at) }
        ensures room { IfOk result (λ b. IsTrue b → length (past_before pass.new) < bound (plan_shared self.now)) }
        ensures unmade { IfOk result (λ b. b ≡ false → places pass.new ≡ places pass.old) }
        ensures not_enabled { IfOk result (λ b. b ≡ false → IsRelease (rules_of O.Ordering) (plan_shared self.now) (past_seen pass.new) at → ⊥) }
        ensures err { OnErr result (places pass.new ≡ places pass.old) }
        ensures cause { IfErr result (ReleaseCause (rules_of O.Ordering) (plan_shared self.now) (past_seen pass.new) at) }
    {
        let mut journal = self.take_turn(rt, pass);
        let released = journal.release(alloc, at);
        self.end_turn(pass, journal);
        released
    }

    /// Whether every planned call is made, and nothing can be received or released.
    pub fn settled<R: Wait>(&self, rt: &R, pass: &mut GroupPass<O>) -> bool
        requires of { IsPassOf self.now pass.old }
        ensures of { IsPassOf self.now pass.new }
        ensures parts { parts pass.new ≡ parts pass.old }
        ensures seen { IsPrefix (events_seen pass.old) (events_seen pass.new) }
        ensures unmade { places pass.new ≡ places pass.old }
        ensures value { IsTrue result ↔ IsSettled (rules_of O.Ordering) (plan_shared self.now) (past_seen pass.new) }
    {
        let journal = self.take_turn(rt, pass);
        let settled = journal.settled();
        self.end_turn(pass, journal);
        settled
    }

    /// Splits off a pass with one of the pass's parts, for another thread. It has seen what the pass has, and owns
    /// nothing. It takes no memory, and always returns.
    pub fn split(&self, pass: &mut GroupPass<O>) -> GroupPass<O>
        requires of { IsPassOf self.now pass.old }
        requires parts { 2 ≤ parts pass.old }
        ensures of { IsPassOf self.now pass.new × IsPassOf self.now result }
        ensures seen { (events_seen pass.new ≡ events_seen pass.old) × (events_seen result ≡ events_seen pass.old) }
        ensures own { (places pass.new ≡ places pass.old) × (places result ≡ []) }
        ensures parts { (parts pass.new ≡ parts pass.old - 1) × (parts result ≡ 1) }
    {
        self.lock.split(pass)
    }

    /// Takes another pass in. The pass has then the longer of the two lists seen, of which each is a beginning, the places
    /// of both, no two of them the same, and the parts of both. It takes no memory, and always returns.
    pub fn join(&self, pass: &mut GroupPass<O>, other: GroupPass<O>)
        requires of { IsPassOf self.now pass.old × IsPassOf self.now other }
        ensures of { IsPassOf self.now pass.new }
        ensures seen { events_seen pass.new ≡ longer (events_seen pass.old) (events_seen other) }
        ensures prefixes { IsPrefix (events_seen pass.old) (events_seen pass.new) × IsPrefix (events_seen other) (events_seen pass.new) }
        ensures own { places pass.new ≡ merged (places pass.old) (places other) }
        ensures parts { parts pass.new ≡ parts pass.old + parts other }
    {
        self.lock.join(pass, other);
    }

    /// The journal, once the pass has all parts, so that every other was joined into it. Its events begin with what the
    /// pass has seen. They are those that it had when it was shared, those at the pass's own places, and no others. It
    /// always returns.
    pub fn close(self, pass: GroupPass<O>) -> Journal<O>
        requires of { IsPassOf self pass }
        requires parts { parts pass ≡ PARTS }
        ensures plan { plan_of result ≡ plan_shared self }
        ensures seen { IsPrefix (events_seen pass) (events_of result) }
        ensures opening { IsPrefix (events_of (shared self)) (events_of result) }
        ensures own { places pass ≡ new_places (events_of (shared self)) (events_of result) }
    {
        let LiveGroup { lock } = self;
        let KeptJournal { journal, .. } = lock.close(pass);
        journal
    }

    // Takes the pass's turn, and the journal out. It is of the group's plan, and its events go on from what the pass has
    // seen.
    fn take_turn<R: Wait>(&self, rt: &R, pass: &mut GroupPass<O>) -> Journal<O>
        requires of { IsPassOf self.now pass.old }
        ensures of { IsLockPassOf self.now.lock pass.new }
        ensures turning { IsTurning pass.new }
        ensures noted { noted pass.new ≡ entries (plan_of result) (events_of result) }
        ensures plan { plan_of result ≡ plan_shared self.now }
        ensures goes_on { IsPrefix (events_seen pass.old) (events_of result) }
        ensures own { own pass.new ≡ own pass.old }
        ensures behind { AreBehind (own pass.new) }
        ensures parts { parts pass.new ≡ parts pass.old }
    {
        let Turn { value } = self.lock.turn(rt, pass);
        let KeptJournal { journal, .. } = value;
        journal
    }

    // Ends the turn, in which at most one event was made.
    fn end_turn(&self, pass: &mut GroupPass<O>, journal: Journal<O>)
        requires of { IsLockPassOf self.now.lock pass.old }
        requires turning { IsTurning pass.old }
        requires behind { AreBehind (own pass.old) }
        requires plan { plan_of journal ≡ plan_shared self.now }
        requires noted { noted pass.old ≡ entries (plan_of journal) (events_in (noted pass.old)) }
        requires adds { AddsAtMostOne (events_in (noted pass.old)) (events_of journal) }
        ensures of { IsPassOf self.now pass.new }
        ensures seen { events_seen pass.new ≡ events_of journal }
        ensures places { places pass.new ≡ places pass.old ++ new_places (events_in (noted pass.old)) (events_of journal) }
        ensures parts { parts pass.new ≡ parts pass.old }
    {
        let value = KeptJournal::of(journal);
        self.lock.finish(pass, Turn { value });
    }
}

// A copy of the frame that a receipt would take.
fn copy_next<O: Ordering>(
    alloc: Global,
    journal: &Journal<O>,
    from: MemberId,
    to: MemberId,
) -> Result<Option<Frame>, NoMemory>
    requires from_fits { from < (plan_of journal.now).members }
    requires to_fits { to < (plan_of journal.now).members }
    ensures value { IfOk result (λ f. f ≡ open_frame (rules_of O.Ordering) (plan_of journal.now) (past_of journal.now) from to) }
    ensures fits { IfOk result (λ f. IfSome f (FrameFits (plan_of journal.now).members)) }
{
    match journal.next_frame(from, to) {
        Some(frame) => Ok(Some(frame.copy(alloc)?)),
        None => Ok(None),
    }
}
