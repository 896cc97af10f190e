//! The undecided instances of consensus at one member: bodies go to theirs by number, and a suspicion goes to all.
ghost use Rattle.std.specs.Prelude.{ℕ, Bool, List, ◌≡◌, ◌≢◌, ◌<◌, ◌≤◌, ◌∷◌, ◌++◌, ◌==◌, ◌||◌, ◌&&◌, not, [], false, true, None, Some, IfOk, OnOk, OnErr};
ghost use Rattle.std.specs.List.{flat_map};
ghost use Rattle.std.specs.Ordering.{nat_cmp};
ghost use Rattle.std.specs.BTreeMap.{get, insert_entry};
ghost use Rattle.fifo_net.specs.Net.{Called, Took};
ghost use Rattle.upd_base.specs.Body.{BodyFits};
ghost use Rattle.order_trait.specs.Outbox.{Grows, SendFits};
ghost use Rattle.instance_rules.specs.Say.{Say, Starts, Suspects, Trusts, Turns};
ghost use Rattle.instance_rules.specs.History as history;
ghost use Rattle.upd_base.specs.declared.item.Item.{Item};
ghost use Rattle.instance_rules.specs.Place.{place};
ghost use Rattle.instance_rules.specs.Says.{says};
ghost use Rattle.instance_rules.specs.Bodies.{in_instance, say_of};
ghost use Rattle.ct_consensus.specs.Ballot.{all_fit};
ghost use Rattle.ct_consensus.specs.Moves.{IsRow, Sends, TrustsItself};
ghost use Rattle.ct_consensus.specs.Instance as instance;
ghost use Rattle.instance_table.specs.Seated.{AreSeated, IsSeated};

use ct_consensus::Instance;
use order_trait::Outbox;
use std::alloc::Global;
use std::collections::BTreeMap;
use std::mem;
use upd_base::{Batch, Body, MemberId, NoMemory};

/// One member's shares of the instances that are not decided, by number, and whom it suspects.
///
/// A clause speaks of the inputs of each instance for which it stands. Of an instance that is decided
/// nothing is kept.
#[derive(Drop)]
pub struct Instances {
    members: u8,
    me: MemberId,
    /// By member.
    suspected: [bool; 7],
    running: BTreeMap<u64, Instance>,
    ghost some: { 1 ≤ members },
    ghost few: { members ≤ 7 },
    ghost seated: { me < members },
    ghost trusting: { TrustsItself suspected me },
    ghost seats: { AreSeated members me running.entries },
}

impl Instances {
    ghost use Rattle.instance_table.specs.Table.{Covers, IsKept, StandsFor, members_of, me_of};

    /// Before any input; `me` is one of the 1 to 7 members.
    pub fn new(alloc: Global, members: u8, me: MemberId) -> Instances
        requires some { 1 ≤ members }
        requires few { members ≤ 7 }
        requires seated { me < members }
        ensures members { members_of result ≡ members }
        ensures me { me_of result ≡ me }
        ensures stands { StandsFor result (λ k. []) (λ w. false) }
    {
        Instances {
            members,
            me,
            suspected: [false; 7],
            running: BTreeMap::new(alloc),
        }
    }

    /// How many members there are.
    pub fn members(&self) -> u8
        ensures is { result ≡ members_of self.now }
        ensures some { 1 ≤ result }
        ensures few { result ≤ 7 }
    {
        self.members
    }

    /// The member whose shares they are.
    pub fn me(&self) -> MemberId
        ensures is { result ≡ me_of self.now }
        ensures below { result < members_of self.now }
    {
        self.me
    }

    /// Takes out an instance, or makes it where it is not there.
    fn take_out(&mut self, alloc: Global, number: u64) -> Result<Instance, NoMemory>
        requires { 1 ≤ number }
        ensures members { self.new.members ≡ self.old.members }
        ensures me { self.new.me ≡ self.old.me }
        ensures suspected { self.new.suspected ≡ self.old.suspected }
        ensures others { (k : ℕ) → k ≢ number → get nat_cmp self.new.running k ≡ get nat_cmp self.old.running k }
        ensures gone { get nat_cmp self.new.running number ≡ None }
        ensures seat { IfOk result (λ i. IsSeated self.old.members self.old.me (number, i)) }
        ensures stands { IfOk result (λ i. (turns : Turns) → history.decided turns ≡ None → IsKept turns (get nat_cmp self.old.running number) → instance.StandsFor i turns) }
    {
        match self.running.remove(&number) {
            Some(instance) => Ok(instance),
            None => Instance::new(alloc, number, self.members, self.me),
        }
    }

    /// Puts an instance in.
    fn put_back(&mut self, number: u64, instance: Instance) -> Result<(), NoMemory>
        requires { IsSeated self.old.members self.old.me (number, instance) }
        ensures members { self.new.members ≡ self.old.members }
        ensures me { self.new.me ≡ self.old.me }
        ensures suspected { self.new.suspected ≡ self.old.suspected }
        ensures others { OnOk result ((k : ℕ) → k ≢ number → get nat_cmp self.new.running k ≡ get nat_cmp self.old.running k) }
        ensures here { OnOk result (get nat_cmp self.new.running number ≡ Some instance) }
        ensures entries { OnOk result (self.new.running.entries ≡ insert_entry nat_cmp self.old.running.entries number instance) }
    {
        put(&mut self.running, number, instance)
    }

    /// The member's round in an instance, 0 before it takes part.
    pub fn round(&self, number: u64) -> u64
        ensures { (turns : ℕ → Turns) (suspects : ℕ → Bool) → StandsFor self.now turns suspects → history.decided (turns number) ≡ None → result ≡ (place (members_of self.now) (turns number)).round }
    {
        match self.running.get(&number) {
            Some(instance) => instance.round(),
            None => 0,
        }
    }

    /// The member starts an instance that is not decided with a batch of items that name only its members.
    pub fn start(
        &mut self,
        alloc: Global,
        number: u64,
        batch: Batch,
        out: &mut Outbox,
    ) -> Result<(), NoMemory>
        requires counts { 1 ≤ number }
        requires batch_fits { all_fit (members_of self.old) batch ≡ true }
        ensures members { members_of self.new ≡ members_of self.old }
        ensures me { me_of self.new ≡ me_of self.old }
        ensures stands { OnOk result ((turns new : ℕ → Turns) (suspects : ℕ → Bool) → history.decided (turns number) ≡ None → new number ≡ Called (Starts batch) ∷ turns number → ((k : ℕ) → k ≢ number → new k ≡ turns k) → StandsFor self.old turns suspects → StandsFor self.new new suspects) }
        ensures sent { OnOk result ((turns : ℕ → Turns) (suspects : ℕ → Bool) → history.decided (turns number) ≡ None → StandsFor self.old turns suspects → out.new ≡ out.old ++ in_instance number (says (members_of self.old) (me_of self.old) (Called (Starts batch) ∷ turns number))) }
        ensures fits { OnOk result (Grows (SendFits (members_of self.old)) out.old out.new) }
    {
        let mut instance = self.take_out(alloc, number)?;
        instance.start(alloc, batch, &self.suspected, out)?;
        self.put_back(number, instance)?;
        Ok(())
    }

    /// A body of an instance that is not decided, and that it does not decide.
    pub fn hear(
        &mut self,
        alloc: Global,
        number: u64,
        from: MemberId,
        body: &Body,
        out: &mut Outbox,
    ) -> Result<(), NoMemory>
        requires counts { 1 ≤ number }
        requires body_fits { BodyFits (members_of self.old) body.now }
        ensures members { members_of self.new ≡ members_of self.old }
        ensures me { me_of self.new ≡ me_of self.old }
        ensures stands { OnOk result ((turns new : ℕ → Turns) (suspects : ℕ → Bool) (say : Say) → say_of number body.now ≡ Some say → history.decided (Took from say ∷ turns number) ≡ None → new number ≡ Took from say ∷ turns number → ((k : ℕ) → k ≢ number → new k ≡ turns k) → StandsFor self.old turns suspects → StandsFor self.new new suspects) }
        ensures sent { OnOk result ((turns : ℕ → Turns) (suspects : ℕ → Bool) (say : Say) → say_of number body.now ≡ Some say → history.decided (turns number) ≡ None → StandsFor self.old turns suspects → out.new ≡ out.old ++ in_instance number (says (members_of self.old) (me_of self.old) (Took from say ∷ turns number))) }
        ensures fits { OnOk result (Grows (SendFits (members_of self.old)) out.old out.new) }
    {
        let mut instance = self.take_out(alloc, number)?;
        instance.receive(alloc, from, body, &self.suspected, out)?;
        self.put_back(number, instance)?;
        Ok(())
    }

    /// A body that decides an instance that was not decided: nothing more is kept of it.
    pub fn decide(
        &mut self,
        alloc: Global,
        number: u64,
        from: MemberId,
        body: &Body,
        out: &mut Outbox,
    ) -> Result<(), NoMemory>
        requires counts { 1 ≤ number }
        requires body_fits { BodyFits (members_of self.old) body.now }
        ensures members { members_of self.new ≡ members_of self.old }
        ensures me { me_of self.new ≡ me_of self.old }
        ensures stands { OnOk result ((turns new : ℕ → Turns) (suspects : ℕ → Bool) (say : Say) (b : List Item) → history.decides say ≡ Some b → history.decided (turns number) ≡ None → new number ≡ Took from say ∷ turns number → ((k : ℕ) → k ≢ number → new k ≡ turns k) → StandsFor self.old turns suspects → StandsFor self.new new suspects) }
        ensures sent { OnOk result ((turns : ℕ → Turns) (suspects : ℕ → Bool) (say : Say) → say_of number body.now ≡ Some say → history.decided (turns number) ≡ None → StandsFor self.old turns suspects → out.new ≡ out.old ++ in_instance number (says (members_of self.old) (me_of self.old) (Took from say ∷ turns number))) }
        ensures fits { OnOk result (Grows (SendFits (members_of self.old)) out.old out.new) }
    {
        let mut instance = self.take_out(alloc, number)?;
        instance.receive(alloc, from, body, &self.suspected, out)?;
        Ok(())
    }

    /// The member trusts another again. Nothing is sent.
    pub fn trust(&mut self, who: MemberId)
        ensures members { members_of self.new ≡ members_of self.old }
        ensures me { me_of self.new ≡ me_of self.old }
        ensures stands { (turns new : ℕ → Turns) (suspects now : ℕ → Bool) → ((k : ℕ) → new k ≡ Called (Trusts who) ∷ turns k) → ((w : ℕ) → now w ≡ (not (who == w) && suspects w)) → StandsFor self.old turns suspects → StandsFor self.new new now }
    {
        self.suspected[usize::from(who.get())] = false;
    }

    /// The member suspects another: each instance is told, by ascending number.
    pub fn suspect(
        &mut self,
        alloc: Global,
        who: MemberId,
        out: &mut Outbox,
    ) -> Result<(), NoMemory>
        requires { who ≢ me_of self.old }
        ensures members { members_of self.new ≡ members_of self.old }
        ensures me { me_of self.new ≡ me_of self.old }
        ensures stands { OnOk result ((turns new : ℕ → Turns) (suspects now : ℕ → Bool) → ((k : ℕ) → new k ≡ Called (Suspects who) ∷ turns k) → ((w : ℕ) → now w ≡ ((who == w) || suspects w)) → StandsFor self.old turns suspects → StandsFor self.new new now) }
        ensures sent { OnOk result ((turns : ℕ → Turns) (suspects : ℕ → Bool) (numbers : List ℕ) → Covers turns numbers → StandsFor self.old turns suspects → out.new ≡ out.old ++ flat_map (λ k. in_instance k (says (members_of self.old) (me_of self.old) (Called (Suspects who) ∷ turns k))) numbers) }
        ensures fits { OnOk result (Grows (SendFits (members_of self.old)) out.old out.new) }
    {
        self.suspected[usize::from(who.get())] = true;
        let mut rest = mem::replace(&mut self.running, BTreeMap::new(alloc));
        let _count = rest.len();
        while let Some((number, mut instance)) = rest.pop_first() {
            instance.suspect(alloc, &self.suspected, out)?;
            self.put_back(number, instance)?;
        }
        Ok(())
    }

    /// It stands for all for which this one stands.
    pub fn copy(&self, alloc: Global) -> Result<Instances, NoMemory>
        ensures members { IfOk result (λ copy. members_of copy ≡ members_of self.now) }
        ensures me { IfOk result (λ copy. me_of copy ≡ me_of self.now) }
        ensures stands { IfOk result (λ copy. (turns : ℕ → Turns) (suspects : ℕ → Bool) → StandsFor self.now turns suspects → StandsFor copy turns suspects) }
    {
        let mut running = BTreeMap::new(alloc);
        for (number, instance) in self.running.iter() {
            put(&mut running, *number, instance.copy(alloc)?)?;
        }
        Ok(Instances {
            members: self.members,
            me: self.me,
            suspected: self.suspected,
            running,
        })
    }
}

/// Puts an instance under its number.
fn put(
    running: &mut BTreeMap<u64, Instance>,
    number: u64,
    instance: Instance,
) -> Result<(), NoMemory>
    ensures ok { OnOk result (running.new.entries ≡ insert_entry nat_cmp running.old.entries number instance) }
    ensures err { OnErr result (running.new.entries ≡ running.old.entries) }
    ensures here { OnOk result (get nat_cmp running.new number ≡ Some instance) }
    ensures others { OnOk result ((k : ℕ) → k ≢ number → get nat_cmp running.new k ≡ get nat_cmp running.old k) }
{
    running.insert(number, instance)?;
    Ok(())
}
