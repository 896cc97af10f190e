//! The ordering modules of one member, one for each version: the newest or an older one is lent for change in place.
ghost use Rattle.std.specs.Prelude.{ℕ, ◌≡◌, ◌<◌, ◌≤◌, [], ◌∷◌, ◌++◌, true, Some, length, slice_get, IfOk, OnOk, OnErr, IfSome, IsSome, ◌↔◌};
ghost use Rattle.std.specs.Borrow.{sem};
ghost use Rattle.upd_base.specs.Kind.{KindFits};
ghost use Rattle.upd_base.specs.declared.limits.TheConstants.{MAX_MEMBERS};
ghost use Rattle.module_versions.specs.Modules.{newest, seat_of};
ghost use Rattle.module_versions.specs.Lending.{LendsNewest, LendsVersion};

use order_trait::Ordering;
use std::alloc::Global;
use std::marker::Model;
use upd_base::{Kind, MemberId, NoMemory};

/// A module for each version that a member reached, that of version 0 first.
#[derive(Drop)]
pub struct Bound<O> {
    members: u8,
    me: MemberId,
    modules: Vec<O>,
}

impl<O> Model for Bound<O> {
    ghost use Rattle.std.specs.Prelude.{vec_len};
    ghost use Rattle.module_versions.specs.Modules.{IsMember, Modules};

    ghost Value = { Modules O };

    ghost view = { λ b. record { members = b.members; me = b.me; modules = b.modules.items } };

    ghost invariant = { λ b. IsMember b.members b.me (vec_len b.modules) };
}

impl<O: Ordering> Bound<O> {
    /// A fresh module of the first kind, at version 0.
    pub fn start(alloc: Global, n: u8, me: MemberId, first: &Kind) -> Result<Bound<O>, NoMemory>
        requires served { O.is_served first.now ≡ true }
        requires some { 1 ≤ n }
        requires few { n ≤ MAX_MEMBERS }
        requires me_fits { me < n }
        requires kind_fits { KindFits n first.now }
        ensures members { IfOk result (λ b. b.members ≡ n) }
        ensures me { IfOk result (λ b. b.me ≡ me) }
        ensures one { IfOk result (λ b. (m : O) × (b.modules ≡ m ∷ []) × (O.seat m ≡ seat_of b first.now) × O.stands m []) }
    {
        let mut modules = Vec::new(alloc);
        modules.push(O::fresh(alloc, *first, n, me)?)?;
        Ok(Bound {
            members: n,
            me,
            modules,
        })
    }

    /// A fresh module of this kind, of the next version. After want of memory the modules are as they were.
    pub fn bind(&mut self, alloc: Global, kind: &Kind) -> Result<(), NoMemory>
        requires served { O.is_served kind.now ≡ true }
        requires kind_fits { KindFits self.old.members kind.now }
        ensures members { self.new.members ≡ self.old.members }
        ensures me { self.new.me ≡ self.old.me }
        ensures more { OnOk result ((m : O) × (self.new.modules ≡ self.old.modules ++ m ∷ []) × (O.seat m ≡ seat_of self.old kind.now) × O.stands m []) }
        ensures err { OnErr result (self.new ≡ self.old) }
    {
        let module = O::fresh(alloc, *kind, self.members, self.me)?;
        self.modules.push(module)?;
        Ok(())
    }

    /// The module of the newest version.
    pub fn current(&mut self) -> &mut O
        ensures* writes_back { sem 𝓛 (LendsNewest O.row self.entry result) }
        ensures value { slice_get self.old.modules (newest self.old) ≡ Some result.now }
    {
        let last = self.modules.len() - 1;
        &mut self.modules[last]
    }

    /// The module of a version; None exactly where it isn't reached.
    pub fn of_version(&mut self, v: u16) -> Option<&mut O>
        ensures* writes_back { sem 𝓛 (LendsVersion O.row self.entry v result) }
        ensures reached { IsSome result ↔ (v < length self.old.modules) }
        ensures value { IfSome result (λ m. slice_get self.old.modules v ≡ Some m.now) }
    {
        self.modules.get_mut(v as usize)
    }
}
