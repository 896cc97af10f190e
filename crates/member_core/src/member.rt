//! One member of the group, with a module for each version that it reached: calls, receipts and releases, each
//! prepared with all its memory and then committed without any.
ghost use Rattle.std.specs.Prelude.{ℕ, Bool, true, false, Some, None, ◌≡◌, ◌<◌, ◌≤◌, ◌+◌, ◌==◌, ◌&&◌, not, if◌then◌else◌, [], ◌∷◌, ◌++◌, length, List, All, IfOk, OnOk, OnErr, IfErr, is_some, nat_le, nat_lt, slice_get};
ghost use Rattle.fifo_net.specs.Net.{Input as NetInput, Called, Took};
ghost use Rattle.upd_base.specs.Kind.{kind_fits, KindFits};
ghost use Rattle.upd_base.specs.Body.{BodyFits, is_body};
ghost use Rattle.upd_base.specs.declared.kind.Kind.{Kind};
ghost use Rattle.upd_base.specs.declared.frame.Frame.{Frame};
ghost use Rattle.upd_base.specs.declared.call.Call.TheVariants.{Send, Change as AskChange};
ghost use Rattle.upd_base.specs.declared.answer.Answer.TheVariants.{Accepted, Done, Full, VersionLimit, BadKind, BadMember};
ghost use Rattle.order_trait.specs.Outbox.{Grows as GrowsBy};
ghost use Rattle.upd_base.specs.Item.{origin_of, ItemFits};
ghost use Rattle.upd_base.specs.declared.limits.TheConstants.{MAX_MEMBERS, MAX_VERSION, MAX_UNDELIVERED};
ghost use Rattle.group_run.specs.Group.{Outer, Makes, Releases};
ghost use Rattle.group_run.specs.Held.{first_ready};
ghost use Rattle.member_rules.specs.Kept.{HeldFits};

use crate::acts::{Outcome, enter, replaced};
use crate::change::{Change, Progress};
use crate::commit::{append, bind, drop_ready, put, renew, reserve_for};
use crate::input::Input;
use crate::prepared::{Prepared, nothing, refused};
use crate::sent::Sent;
use crate::start::{fresh_of, new_repl};
use crate::steps::{after_broadcast, after_receipt, all_after_suspicion, frame_all};
use early_frames::Held;
use order_trait::{Ordering, Outbox};
use replacement::Repl;
use std::alloc::Global;
use upd_base::{
    Answer, Call, Frame, Item, Kind, Log, MAX_UNDELIVERED, MAX_VERSION, MemberId, NoMemory, Text,
};

/// One member: its modules by version, and what it keeps beside them.
#[derive(Drop)]
pub struct Member<O: Ordering> {
    members: u8,
    me: MemberId,
    first: Kind,
    modules: Vec<O>,
    repl: Repl,
    held: Held,
    log: Log,
    suspected: Vec<bool>,
    crashed: bool,
    ghost some: { 1 ≤ members },
    ghost few: { members ≤ MAX_MEMBERS },
    ghost me_fits: { me < members },
    ghost first_served: { O.is_served first ≡ true },
    ghost first_fits: { KindFits members first },
    ghost versions: { length modules.items ≡ repl.version + 1 },
    ghost few_versions: { repl.version ≤ MAX_VERSION },
    ghost members_are: { All (λ m. (O.seat m).members ≡ members) modules.items },
    ghost me_is: { All (λ m. (O.seat m).me ≡ me) modules.items },
    ghost mine: { repl.me ≡ me },
    ghost own: { All (λ item. origin_of item ≡ me) repl.undelivered },
    ghost items_fit: { All (λ item. ItemFits members item) repl.undelivered },
    ghost row: { length suspected.items ≡ members },
    ghost not_self: { slice_get suspected.items me ≡ Some false },
    ghost held_fit: { All (λ h. HeldFits members h) held.frames },
}

impl<O: Ordering> Member<O> {
    ghost use Rattle.group_run.specs.Part.{Part, version, present_kind, undelivered, log, with_accepted};
    ghost use Rattle.group_run.specs.Held.{first_ready, waits};
    ghost use Rattle.group_run.specs.Answer.{answer};
    ghost use Rattle.group_run.specs.Turn.{turn_of, turn_after, called, issued, took, processed};
    ghost use Rattle.group_run.specs.Growing.{NextIsNew, TakesMore};
    ghost use Rattle.member_rules.specs.Kept.{group_of, IsMember};
    ghost use Rattle.member_rules.specs.Stands.{Stands, part_of, Grows};
    ghost use Rattle.member_rules.specs.Steps.{SentFits, Enters, MayMake, entering, fresh_orders, releasing, suspicion};
    ghost use Rattle.member_core.specs.Member.{kept_by};
    ghost use Rattle.member_core.specs.Input.{MAX_MADE, MayCall, MayTake, MayRelease, MayHave, input_of, answer_to, is_call, items_by, would_fill};
    ghost use Rattle.member_core.specs.Foretold.{Keeps, Reaches, IsSound, MakesTurn, given_by};
    ghost use Rattle.member_core.specs.Prepared.{advanced, changed, committed, answer_of, sent_of, HasRoom, HasRoomFor, IsReady};

    /// The member `me` of a group of `n` members, before any input.
    pub fn start(alloc: Global, n: u8, me: MemberId, first: Kind) -> Result<Member<O>, NoMemory>
        requires served { O.is_served first ≡ true }
        requires some { 1 ≤ n }
        requires few { n ≤ MAX_MEMBERS }
        requires me_fits { me < n }
        requires kind_fits { KindFits n first }
        ensures members { IfOk result (λ m. (kept_by m).members ≡ n) }
        ensures me { IfOk result (λ m. (kept_by m).me ≡ me) }
        ensures first { IfOk result (λ m. (kept_by m).first ≡ first) }
        ensures stands { IfOk result (λ m. Stands O.Ordering (kept_by m) []) }
    {
        let mut modules = Vec::new(alloc);
        modules.push(fresh_of(alloc, &first, n, me)?)?;
        let suspected = vec![in alloc; false; n as usize]?;
        Ok(Member {
            members: n,
            me,
            repl: new_repl(alloc, me, &first),
            first,
            modules,
            held: Held::new(alloc),
            log: Log::new(alloc),
            suspected,
            crashed: false,
        })
    }

    /// Prepares an event with all its memory. The member keeps what it kept, also after want of memory.
    pub fn prepare(&mut self, alloc: Global, input: &Input) -> Result<Prepared<O>, NoMemory>
        requires { MayHave O.Ordering (kept_by self.old) input.now }
        ensures kept { kept_by self.new ≡ kept_by self.old }
        ensures ready { IfOk result (λ p. IsReady O.Ordering self.new p) }
        ensures fits { IfOk result (λ p. All (λ s. SentFits (kept_by self.old).members s) (sent_of p)) }
        ensures answered { IfOk result (λ p. is_some (answer_of p) ≡ is_call input.now) }
        ensures answer { IfOk result (λ p. (past : List (NetInput Outer Frame)) → Stands O.Ordering (kept_by self.old) past → answer_of p ≡ answer_to O.Ordering (kept_by self.old) (part_of O.Ordering (kept_by self.old) past) input.now) }
        ensures sent { IfOk result (λ p. (past : List (NetInput Outer Frame)) → Stands O.Ordering (kept_by self.old) past → Grows (group_of O.Ordering (kept_by self.old)) (kept_by self.old).me past (input_of input.now) → sent_of p ≡ (turn_of (group_of O.Ordering (kept_by self.old)) (kept_by self.old).me (input_of input.now ∷ past)).frames) }
        ensures stands { IfOk result (λ p. (past : List (NetInput Outer Frame)) → Stands O.Ordering (kept_by self.old) past → Grows (group_of O.Ordering (kept_by self.old)) (kept_by self.old).me past (input_of input.now) → Stands O.Ordering (committed (kept_by self.old) p) (input_of input.now ∷ past)) }
        ensures made { IfOk result (λ p. (committed (kept_by self.old) p).repl.made ≤ (kept_by self.old).repl.made + items_by input.now) }
    {
        let prepared = self.foretell(alloc, input)?;
        self.make_room(&prepared.change)?;
        Ok(prepared)
    }

    /// Makes room for a change. Nothing else changes, also after want of memory.
    fn make_room(&mut self, change: &Change<O>) -> Result<(), NoMemory>
        requires { Reaches (kept_by self.old) change.now }
        ensures kept { kept_by self.new ≡ kept_by self.old }
        ensures room { OnOk result (HasRoom self.new change.now) }
    {
        match change {
            Change::Nothing | Change::Stop | Change::Tell { .. } => Ok(()),
            Change::Hold { .. } => self.held.reserve(),
            Change::Advance(progress) => {
                self.log.reserve(progress.entries.len())?;
                reserve_for(&mut self.modules, &progress.fresh)
            }
        }
    }

    /// What an event comes to, with all its memory but the room for it.
    fn foretell(&self, alloc: Global, input: &Input) -> Result<Prepared<O>, NoMemory>
        requires { MayHave O.Ordering (kept_by self.now) input.now }
        ensures sound { IfOk result (λ p. IsSound O.Ordering (kept_by self.now) (items_by input.now) p) }
        ensures answered { IfOk result (λ p. is_some (answer_of p) ≡ is_call input.now) }
        ensures answer { IfOk result (λ p. (part : Part) → Keeps O.Ordering (kept_by self.now) part → answer_of p ≡ answer_to O.Ordering (kept_by self.now) part input.now) }
        ensures turn { IfOk result (λ p. (part : Part) → Keeps O.Ordering (kept_by self.now) part → MayMake (group_of O.Ordering (kept_by self.now)) (kept_by self.now).me part (input_of input.now) → MakesTurn O.Ordering (kept_by self.now) p (turn_after (group_of O.Ordering (kept_by self.now)) (kept_by self.now).me part (input_of input.now))) }
    {
        match input {
            Input::Call(call) => self.on_call(alloc, call),
            Input::Receive { from, frame } => self.on_receipt(alloc, *from, frame),
            Input::Release => self.on_release(alloc),
        }
    }

    /// A call, by what the definition answers.
    fn on_call(&self, alloc: Global, call: &Call) -> Result<Prepared<O>, NoMemory>
        requires { MayCall O.Ordering (kept_by self.now) call.now }
        ensures sound { IfOk result (λ p. IsSound O.Ordering (kept_by self.now) 1 p) }
        ensures answered { IfOk result (λ p. is_some (answer_of p) ≡ true) }
        ensures answer { IfOk result (λ p. (part : Part) → Keeps O.Ordering (kept_by self.now) part → answer_of p ≡ Some (answer (group_of O.Ordering (kept_by self.now)) (kept_by self.now).me part call.now)) }
        ensures turn { IfOk result (λ p. (part : Part) → Keeps O.Ordering (kept_by self.now) part → NextIsNew (group_of O.Ordering (kept_by self.now)) (kept_by self.now).me part → MakesTurn O.Ordering (kept_by self.now) p (called (group_of O.Ordering (kept_by self.now)) (kept_by self.now).me part call.now (given_by p))) }
    {
        if self.crashed {
            return Ok(refused(alloc, Answer::Crashed));
        }
        match call {
            Call::Send(text) => self.on_send(alloc, text),
            Call::Change(kind) => self.on_change(alloc, kind),
            Call::Suspect(who) => self.on_suspicion(alloc, *who, true),
            Call::Trust(who) => self.on_suspicion(alloc, *who, false),
            Call::Crash => Ok(Prepared {
                change: Change::Stop,
                answer: Some(Answer::Done),
                sent: Vec::new(alloc),
            }),
        }
    }

    /// A message: it must find room among the undelivered.
    fn on_send(&self, alloc: Global, text: &Text) -> Result<Prepared<O>, NoMemory>
        requires { (kept_by self.now).repl.made < MAX_MADE }
        ensures sound { IfOk result (λ p. IsSound O.Ordering (kept_by self.now) 1 p) }
        ensures answer { IfOk result (λ p. answer_of p ≡ Some (if nat_le MAX_UNDELIVERED (length (kept_by self.now).repl.undelivered) then Full else Accepted (kept_by self.now).repl.made)) }
        ensures turn { IfOk result (λ p. (part : Part) → Keeps O.Ordering (kept_by self.now) part → NextIsNew (group_of O.Ordering (kept_by self.now)) (kept_by self.now).me part → MakesTurn O.Ordering (kept_by self.now) p (called (group_of O.Ordering (kept_by self.now)) (kept_by self.now).me part (Send text.now) (given_by p))) }
    {
        if self.is_full() {
            return Ok(refused(alloc, Answer::Full));
        }
        let mut repl = self.repl.copy(alloc)?;
        let Some(item) = repl.issue(text)? else {
            return Ok(refused(alloc, Answer::Full));
        };
        self.accept(alloc, &item, repl)
    }

    /// A change: it must name a kind that fits, in a version that can be left.
    fn on_change(&self, alloc: Global, kind: &Kind) -> Result<Prepared<O>, NoMemory>
        requires { (kept_by self.now).repl.made < MAX_MADE }
        ensures sound { IfOk result (λ p. IsSound O.Ordering (kept_by self.now) 1 p) }
        ensures answer { IfOk result (λ p. answer_of p ≡ Some (if kind_fits (kept_by self.now).members kind.now then (if (kept_by self.now).repl.version == MAX_VERSION then VersionLimit else Accepted (kept_by self.now).repl.made) else BadKind)) }
        ensures turn { IfOk result (λ p. (part : Part) → Keeps O.Ordering (kept_by self.now) part → MakesTurn O.Ordering (kept_by self.now) p (called (group_of O.Ordering (kept_by self.now)) (kept_by self.now).me part (AskChange kind.now) (given_by p))) }
    {
        if !kind.fits(self.members) {
            return Ok(refused(alloc, Answer::BadKind));
        }
        if self.repl.version() >= MAX_VERSION {
            return Ok(refused(alloc, Answer::VersionLimit));
        }
        let mut repl = self.repl.copy(alloc)?;
        let Some(item) = repl.ask_change(*kind) else {
            return Ok(refused(alloc, Answer::VersionLimit));
        };
        self.accept(alloc, &item, repl)
    }

    /// An item is accepted, and broadcast in the present version. The replacement is the one after its issue.
    fn accept(&self, alloc: Global, item: &Item, repl: Repl) -> Result<Prepared<O>, NoMemory>
        requires own { origin_of item.now ≡ (kept_by self.now).me }
        requires item_fits { ItemFits (kept_by self.now).members item.now }
        requires mine { repl.me ≡ (kept_by self.now).repl.me }
        requires version { repl.version ≡ (kept_by self.now).repl.version }
        requires kind { repl.kind ≡ (kept_by self.now).repl.kind }
        requires made { repl.made ≡ (kept_by self.now).repl.made + 1 }
        requires all_fit { All (ItemFits (kept_by self.now).members) repl.undelivered }
        requires all_own { All (λ x. origin_of x ≡ (kept_by self.now).me) repl.undelivered }
        ensures sound { IfOk result (λ p. IsSound O.Ordering (kept_by self.now) 1 p) }
        ensures answer { IfOk result (λ p. answer_of p ≡ Some (Accepted (kept_by self.now).repl.made)) }
        ensures turn { IfOk result (λ p. (part : Part) → Keeps O.Ordering (kept_by self.now) part → repl.undelivered ≡ undelivered (group_of O.Ordering (kept_by self.now)) (kept_by self.now).me (with_accepted part item.now) → MakesTurn O.Ordering (kept_by self.now) p (issued (group_of O.Ordering (kept_by self.now)) (kept_by self.now).me part item.now)) }
    {
        let number = self.repl.made();
        let version = self.repl.version();
        let module = &self.modules[version as usize];
        let mut sent = Vec::new(alloc);
        let next = after_broadcast(alloc, module, version, item, &mut sent)?;
        Ok(Prepared {
            change: Change::Advance(Progress {
                version,
                module: next,
                repl: Some(repl),
                entries: Vec::new(alloc),
                fresh: None,
                releases: false,
            }),
            answer: Some(Answer::Accepted(number)),
            sent,
        })
    }

    /// A suspicion comes or goes: it must name another member, and each module is told.
    fn on_suspicion(&self, alloc: Global, who: u8, on: bool) -> Result<Prepared<O>, NoMemory>
        ensures sound { IfOk result (λ p. IsSound O.Ordering (kept_by self.now) 0 p) }
        ensures answer { IfOk result (λ p. answer_of p ≡ Some (if nat_lt who (kept_by self.now).members && not (who == (kept_by self.now).me) then Done else BadMember)) }
        ensures turn { IfOk result (λ p. (part : Part) → Keeps O.Ordering (kept_by self.now) part → MakesTurn O.Ordering (kept_by self.now) p (called (group_of O.Ordering (kept_by self.now)) (kept_by self.now).me part (suspicion on who) (given_by p))) }
    {
        if who >= self.members || who == self.me.get() {
            return Ok(refused(alloc, Answer::BadMember));
        }
        let Some(member) = MemberId::new(who) else {
            return Ok(refused(alloc, Answer::BadMember));
        };
        let mut sent = Vec::new(alloc);
        let modules = all_after_suspicion(alloc, self.modules.as_slice(), member, on, &mut sent)?;
        Ok(Prepared {
            change: Change::Tell {
                who: member,
                on,
                modules,
            },
            answer: Some(Answer::Done),
            sent,
        })
    }

    /// A frame of a link: one that comes early is held, any other is processed.
    fn on_receipt(
        &self,
        alloc: Global,
        from: MemberId,
        frame: &Frame,
    ) -> Result<Prepared<O>, NoMemory>
        requires { MayTake (kept_by self.now) from frame.now }
        ensures sound { IfOk result (λ p. IsSound O.Ordering (kept_by self.now) 0 p) }
        ensures answer { IfOk result (λ p. answer_of p ≡ None) }
        ensures turn { IfOk result (λ p. (part : Part) → Keeps O.Ordering (kept_by self.now) part → MayMake (group_of O.Ordering (kept_by self.now)) (kept_by self.now).me part (Took from frame.now) → MakesTurn O.Ordering (kept_by self.now) p (took (group_of O.Ordering (kept_by self.now)) (kept_by self.now).me part from frame.now)) }
    {
        if self.is_early(from, frame.version) {
            return Ok(Prepared {
                change: Change::Hold {
                    from,
                    frame: frame.copy(alloc)?,
                },
                answer: None,
                sent: Vec::new(alloc),
            });
        }
        self.process(alloc, from, frame, false)
    }

    /// A frame of this sender and version must wait.
    fn is_early(&self, from: MemberId, version: u16) -> bool
        ensures { result ≡ (if nat_lt (kept_by self.now).repl.version version then true else waits from version (kept_by self.now).held) }
    {
        if self.repl.version() < version {
            return true;
        }
        self.held.waits(from, version)
    }

    /// The first held frame whose version is reached is processed.
    fn on_release(&self, alloc: Global) -> Result<Prepared<O>, NoMemory>
        requires { MayRelease (kept_by self.now) }
        ensures sound { IfOk result (λ p. IsSound O.Ordering (kept_by self.now) 0 p) }
        ensures answer { IfOk result (λ p. answer_of p ≡ None) }
        ensures turn { IfOk result (λ p. (part : Part) → Keeps O.Ordering (kept_by self.now) part → MayMake (group_of O.Ordering (kept_by self.now)) (kept_by self.now).me part (Called Releases) → MakesTurn O.Ordering (kept_by self.now) p (turn_after (group_of O.Ordering (kept_by self.now)) (kept_by self.now).me part (Called Releases))) }
    {
        match self.held.first(self.repl.version()) {
            Some(first) => self.process(alloc, first.0, &first.1, true),
            None => Ok(nothing(alloc)),
        }
    }

    /// A frame goes to the module of its version.
    fn process(
        &self,
        alloc: Global,
        from: MemberId,
        frame: &Frame,
        releases: bool,
    ) -> Result<Prepared<O>, NoMemory>
        requires version { frame.now.version ≤ (kept_by self.now).repl.version }
        requires from_fits { from < (kept_by self.now).members }
        requires frame_fits { BodyFits (kept_by self.now).members frame.now.body }
        requires frame_counts { is_body frame.now.body ≡ true }
        ensures sound { IfOk result (λ p. IsSound O.Ordering (kept_by self.now) 0 p) }
        ensures answer { IfOk result (λ p. answer_of p ≡ None) }
        ensures turn { IfOk result (λ p. (part : Part) → Keeps O.Ordering (kept_by self.now) part → TakesMore (group_of O.Ordering (kept_by self.now)) (kept_by self.now).me part from frame.now → MakesTurn O.Ordering (kept_by self.now) p (processed (group_of O.Ordering (kept_by self.now)) (kept_by self.now).me (releasing releases part) from frame.now)) }
    {
        let version = frame.version;
        let module = &self.modules[version as usize];
        let mut sent = Vec::new(alloc);
        let mut delivered = Vec::new(alloc);
        let next = after_receipt(alloc, module, from, frame, &mut sent, &mut delivered)?;
        let outcome = replaced::<O>(alloc, &self.repl, version, delivered)?;
        let fresh = self.entered(alloc, version + 1, &outcome, &mut sent)?;
        Ok(Prepared {
            change: Change::Advance(Progress {
                version,
                module: next,
                repl: outcome.repl,
                entries: outcome.entries,
                fresh,
                releases,
            }),
            answer: None,
            sent,
        })
    }

    /// The module of the version that is entered, where one is, which was told its first orders.
    fn entered(
        &self,
        alloc: Global,
        version: u16,
        outcome: &Outcome,
        sent: &mut Vec<(MemberId, Frame)>,
    ) -> Result<Option<O>, NoMemory>
        requires low { (kind : Kind) → outcome.now.next ≡ Some kind → version ≤ MAX_VERSION }
        requires served { (kind : Kind) → outcome.now.next ≡ Some kind → O.is_served kind ≡ true }
        requires kind_fits { (kind : Kind) → outcome.now.next ≡ Some kind → KindFits (kept_by self.now).members kind }
        requires own { (kind : Kind) → outcome.now.next ≡ Some kind → All (λ item. origin_of item ≡ (kept_by self.now).me) outcome.now.again.items }
        requires items_fit { (kind : Kind) → outcome.now.next ≡ Some kind → All (ItemFits (kept_by self.now).members) outcome.now.again.items }
        ensures enters { IfOk result (λ fresh. Enters O.Ordering (kept_by self.now).members (kept_by self.now).me (fresh_orders (kept_by self.now).suspected outcome.now.again.items) outcome.now.next fresh) }
        ensures sent { OnOk result (sent.new.items ≡ sent.old.items ++ entering O.Ordering (kept_by self.now).members (kept_by self.now).me version (fresh_orders (kept_by self.now).suspected outcome.now.again.items) outcome.now.next) }
        ensures fits { OnOk result (GrowsBy (SentFits (kept_by self.now).members) sent.old.items sent.new.items) }
    {
        let Some(kind) = &outcome.next else {
            return Ok(None);
        };
        let mut bodies = Outbox::new(alloc);
        let suspected = self.suspected.as_slice();
        let again = outcome.again.as_slice();
        let fresh = enter(
            alloc,
            kind,
            self.members,
            self.me,
            suspected,
            again,
            &mut bodies,
        )?;
        frame_all(bodies, version, sent)?;
        Ok(Some(fresh))
    }

    /// Commits what was prepared on this member, with no changing call between. Takes no memory.
    pub fn commit(&mut self, prepared: Prepared<O>) -> (Option<Answer>, Sent)
        requires { IsReady O.Ordering self.old prepared }
        ensures kept { kept_by self.new ≡ committed (kept_by self.old) prepared }
        ensures answer { result.0 ≡ answer_of prepared }
        ensures sent { result.1 ≡ sent_of prepared }
    {
        self.make(prepared.change);
        (prepared.answer, Sent::of(prepared.sent))
    }

    fn make(&mut self, change: Change<O>)
        requires room { HasRoom self.old change }
        requires member { IsMember O.Ordering (changed (kept_by self.old) change) }
        ensures { kept_by self.new ≡ changed (kept_by self.old) change }
    {
        match change {
            Change::Nothing => {}
            Change::Stop => self.crashed = true,
            Change::Hold { from, frame } => self.held.keep_ready(from, frame),
            Change::Tell { who, on, modules } => {
                self.modules = modules;
                self.suspected[who.get() as usize] = on;
            }
            Change::Advance(progress) => self.advance(progress),
        }
    }

    fn advance(&mut self, progress: Progress<O>)
        requires room { HasRoomFor self.old progress }
        requires member { IsMember O.Ordering (advanced (kept_by self.old) progress) }
        ensures { kept_by self.new ≡ advanced (kept_by self.old) progress }
    {
        drop_ready(&mut self.held, progress.releases, self.repl.version());
        put(&mut self.modules, progress.version, progress.module);
        bind(&mut self.modules, progress.fresh);
        renew(&mut self.repl, progress.repl);
        append(&mut self.log, progress.entries);
    }

    /// What it delivered.
    pub fn log(&self) -> &Log
        ensures value { result.now.entries ≡ (kept_by self.now).entries }
        ensures part { (past : List (NetInput Outer Frame)) → Stands O.Ordering (kept_by self.now) past → result.now.entries ≡ log (group_of O.Ordering (kept_by self.now)) (kept_by self.now).me (part_of O.Ordering (kept_by self.now) past) }
    {
        &self.log
    }

    /// Its version, at most 1,000.
    pub fn version(&self) -> u16
        ensures value { result ≡ (kept_by self.now).repl.version }
        ensures part { (past : List (NetInput Outer Frame)) → Stands O.Ordering (kept_by self.now) past → result ≡ version (part_of O.Ordering (kept_by self.now) past) }
    {
        self.repl.version()
    }

    /// The kind of its version.
    pub fn kind(&self) -> Kind
        ensures value { result ≡ (kept_by self.now).repl.kind }
        ensures part { (past : List (NetInput Outer Frame)) → Stands O.Ordering (kept_by self.now) past → result ≡ present_kind (group_of O.Ordering (kept_by self.now)) (kept_by self.now).me (part_of O.Ordering (kept_by self.now) past) }
    {
        self.repl.kind()
    }

    /// How many of the messages that it accepted are absent from its log.
    pub fn undelivered(&self) -> usize
        ensures value { result ≡ length (kept_by self.now).repl.undelivered }
        ensures part { (past : List (NetInput Outer Frame)) → Stands O.Ordering (kept_by self.now) past → result ≡ length (undelivered (group_of O.Ordering (kept_by self.now)) (kept_by self.now).me (part_of O.Ordering (kept_by self.now) past)) }
    {
        self.repl.undelivered()
    }

    /// How many messages and changes it accepted.
    pub fn accepted(&self) -> u32
        ensures value { result ≡ (kept_by self.now).repl.made }
        ensures part { (past : List (NetInput Outer Frame)) → Stands O.Ordering (kept_by self.now) past → result ≡ length (part_of O.Ordering (kept_by self.now) past).accepted }
    {
        self.repl.made()
    }

    /// Whether it has crashed.
    pub fn crashed(&self) -> bool
        ensures value { result ≡ (kept_by self.now).crashed }
        ensures part { (past : List (NetInput Outer Frame)) → Stands O.Ordering (kept_by self.now) past → result ≡ (part_of O.Ordering (kept_by self.now) past).crashed }
    {
        self.crashed
    }

    /// Whether a message would be refused as full now. At a crashed member it would be refused as crashed.
    pub fn would_fill(&self) -> bool
        ensures value { result ≡ (not (kept_by self.now).crashed && nat_le MAX_UNDELIVERED (length (kept_by self.now).repl.undelivered)) }
        ensures part { (past : List (NetInput Outer Frame)) → Stands O.Ordering (kept_by self.now) past → result ≡ would_fill (group_of O.Ordering (kept_by self.now)) (kept_by self.now).me (part_of O.Ordering (kept_by self.now) past) }
    {
        !self.crashed && self.is_full()
    }

    /// Whether no message more finds room among the undelivered.
    fn is_full(&self) -> bool
        ensures { result ≡ nat_le MAX_UNDELIVERED (length (kept_by self.now).repl.undelivered) }
    {
        self.repl.undelivered() >= MAX_UNDELIVERED
    }

    /// Whether the version of a frame that it holds is reached.
    pub fn ready(&self) -> bool
        ensures value { result ≡ is_some (first_ready (kept_by self.now).repl.version (kept_by self.now).held) }
        ensures part { (past : List (NetInput Outer Frame)) → Stands O.Ordering (kept_by self.now) past → result ≡ is_some (first_ready (version (part_of O.Ordering (kept_by self.now) past)) (part_of O.Ordering (kept_by self.now) past).held) }
    {
        self.held.ready(self.repl.version())
    }
}
