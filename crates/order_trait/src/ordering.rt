//! The interface of total order broadcast: the calls on a module, each tied to what its kind sends and delivers, and
//! the five laws that every kind owes.
ghost use Rattle.std.specs.Prelude.{ℕ, List, Bool, true, ◌≡◌, ◌≢◌, ◌<◌, ◌≤◌, [], ◌∷◌, ◌++◌, if◌then◌else◌, IfOk, OnOk};
ghost use Rattle.fifo_net.specs.Net.{Input, Called, Took};
ghost use Rattle.upd_base.specs.Kind.{KindFits};
ghost use Rattle.upd_base.specs.Item.{origin_of, ItemFits};
ghost use Rattle.upd_base.specs.Body.{BodyFits, is_body};
ghost use Rattle.upd_base.specs.declared.kind.Kind.{Kind};
ghost use Rattle.upd_base.specs.declared.item.Item.{Item};
ghost use Rattle.order_trait.specs.Outbox.{SendFits, Grows};
ghost use Rattle.order_trait.specs.Runs.{Order, Broadcast, Suspect, Trust, Inputs, Seat, KindSends, KindDelivers, at_seat, KeepsAgreement, KeepsIntegrity, KeepsFulfilment, KeepsBound, NeverSaysPast};

use crate::outbox::Outbox;
use std::alloc::Global;
use upd_base::{Body, Item, Kind, MemberId, NoMemory};

/// A module that orders items: one member's part of one kind.
///
/// A kind is two functions of a module's inputs: `sends`, what goes out at the newest of them, and
/// `delivers`, all that was delivered up to it. A module keeps no list of its inputs: `stands` says
/// for which lists it stands. A fresh one stands for the empty list, and a call on a module that
/// stands for a list leaves one that stands for that list with the call as its newest input. What the
/// call sends and delivers is what the two functions give there, for every list for which the module
/// stands, whether it is one of a run or not.
///
/// The laws at the end hold of the two functions, over all runs of modules of a served kind, the last at all inputs
/// (`specs/Runs`). The only error is want of memory; after it the module has the seat that it had, and
/// is promised no more.
pub trait Ordering: Drop + Send + Sync {
    /// The kinds that are served.
    ghost is_served: { Kind → Bool };

    /// What a module of a kind sends at the newest of its inputs.
    ghost sends: { Kind → KindSends };

    /// All that a module of a kind has delivered.
    ghost delivers: { Kind → KindDelivers };

    /// What the module was made with.
    ghost seat: { Self → Seat };

    /// The module is as these inputs leave it.
    ghost stands: { Self → Inputs → Type 0 };

    /// Whether modules of this kind are served.
    fn serves(kind: Kind) -> bool
        ensures { result ≡ is_served kind };

    /// A module of a served kind for the member `me` of 1 to 7 members, before any input.
    fn fresh(alloc: Global, kind: Kind, n: u8, me: MemberId) -> Result<Self, NoMemory>
        requires served { is_served kind ≡ true }
        requires some { 1 ≤ n }
        requires few { n ≤ 7 }
        requires me_fits { me < n }
        requires kind_fits { KindFits n kind }
        ensures seat { IfOk result (λ m. seat m ≡ record { kind = kind; members = n; me = me }) }
        ensures stands { IfOk result (λ m. stands m []) };

    /// A module with the same seat that stands for every list of inputs for which this one stands.
    fn copy(&self, alloc: Global) -> Result<Self, NoMemory>
        ensures seat { IfOk result (λ m. seat m ≡ seat self.now) }
        ensures stands { IfOk result (λ m. (past : Inputs) → stands self.now past → stands m past) };

    /// The kind that it was made with.
    fn kind(&self) -> Kind
        ensures { result ≡ (seat self.now).kind };

    /// Broadcasts an item of this member. What is to be sent is appended to `out`.
    fn broadcast(&mut self, alloc: Global, item: &Item, out: &mut Outbox) -> Result<(), NoMemory>
        requires own { origin_of item.now ≡ (seat self.old).me }
        requires item_fits { ItemFits (seat self.old).members item.now }
        ensures seat { seat self.new ≡ seat self.old }
        ensures fits { OnOk result (Grows (SendFits (seat self.old).members) out.old out.new) }
        ensures stands { OnOk result ((past : Inputs) → stands self.old past → stands self.new (Called (Broadcast item.now) ∷ past)) }
        ensures sent { OnOk result ((past : Inputs) → stands self.old past → out.new ≡ out.old ++ at_seat sends (seat self.old) (Called (Broadcast item.now) ∷ past)) };

    /// Takes a body from a member. What is to be sent is appended to `out`, and what this body makes
    /// deliverable to `delivered`: wherever the kind's delivered list grows by some items, as it does in
    /// every run, exactly these. A body of another kind changes nothing. The limits of a body are a
    /// condition, since its fields are public.
    fn receive(
        &mut self,
        alloc: Global,
        from: MemberId,
        body: &Body,
        out: &mut Outbox,
        delivered: &mut Vec<Item>,
    ) -> Result<(), NoMemory>
        requires from_fits { from < (seat self.old).members }
        requires body_fits { BodyFits (seat self.old).members body.now }
        requires body_counts { is_body body.now ≡ true }
        ensures seat { seat self.new ≡ seat self.old }
        ensures fits { OnOk result (Grows (SendFits (seat self.old).members) out.old out.new) }
        ensures items_fit { OnOk result (Grows (ItemFits (seat self.old).members) delivered.old.items delivered.new.items) }
        ensures stands { OnOk result ((past : Inputs) → stands self.old past → stands self.new (Took from body.now ∷ past)) }
        ensures sent { OnOk result ((past : Inputs) → stands self.old past → out.new ≡ out.old ++ at_seat sends (seat self.old) (Took from body.now ∷ past)) }
        ensures delivered { OnOk result ((past : Inputs) → stands self.old past → (more : List Item) → at_seat delivers (seat self.old) (Took from body.now ∷ past) ≡ at_seat delivers (seat self.old) past ++ more → delivered.new.items ≡ delivered.old.items ++ more) };

    /// Suspects a member other than this one, or (`on` is false) trusts it again. What is to be sent is
    /// appended to `out`.
    fn suspect(
        &mut self,
        alloc: Global,
        who: MemberId,
        on: bool,
        out: &mut Outbox,
    ) -> Result<(), NoMemory>
        requires who_fits { who < (seat self.old).members }
        requires not_me { who ≢ (seat self.old).me }
        ensures seat { seat self.new ≡ seat self.old }
        ensures fits { OnOk result (Grows (SendFits (seat self.old).members) out.old out.new) }
        ensures stands { OnOk result ((past : Inputs) → stands self.old past → stands self.new (Called (if on then Suspect who else Trust who) ∷ past)) }
        ensures sent { OnOk result ((past : Inputs) → stands self.old past → out.new ≡ out.old ++ at_seat sends (seat self.old) (Called (if on then Suspect who else Trust who) ∷ past)) };

    /// What any two members delivered agree, what was delivered stays, and only a receipt delivers.
    ghost agreement: { (kind : Kind) → is_served kind ≡ true → KeepsAgreement (sends kind) (delivers kind) kind };

    /// Only what was broadcast is delivered, and nothing twice.
    ghost integrity: { (kind : Kind) → is_served kind ≡ true → KeepsIntegrity (sends kind) (delivers kind) kind };

    /// Without suspicion, and once every body that was sent is taken, every item is delivered everywhere.
    ghost fulfilment: { (kind : Kind) → is_served kind ≡ true → KeepsFulfilment (sends kind) (delivers kind) kind };

    /// Without suspicion, at most 2·n·n + 3·n bodies are sent for each broadcast.
    ghost bound: { (kind : Kind) → is_served kind ≡ true → KeepsBound (sends kind) kind };

    /// No module says that a version is past: members say that.
    ghost never_past: { (kind : Kind) → is_served kind ≡ true → NeverSaysPast (sends kind) };
}
