//! What a version or a member begins with: a fresh ordering module, or the replacement's state at version 0.
ghost use Rattle.std.specs.Prelude.{ℕ, true, ◌≡◌, ◌<◌, ◌≤◌, [], IfOk};
ghost use Rattle.upd_base.specs.Kind.{KindFits};
ghost use Rattle.upd_base.specs.declared.limits.TheConstants.{MAX_MEMBERS};
ghost use Rattle.order_trait.specs.Runs.{Seat};
ghost use Rattle.replacement.specs.Repl.{State};

use order_trait::Ordering;
use replacement::Repl;
use std::alloc::Global;
use upd_base::{Kind, MemberId, NoMemory};

/// A fresh module of a kind.
pub fn fresh_of<O: Ordering>(alloc: Global, kind: &Kind, n: u8, me: MemberId) -> Result<O, NoMemory>
    requires served { O.is_served kind.now ≡ true }
    requires some { 1 ≤ n }
    requires few { n ≤ MAX_MEMBERS }
    requires me_fits { me < n }
    requires kind_fits { KindFits n kind.now }
    ensures seat { IfOk result (λ m. O.seat m ≡ record { kind = kind.now; members = n; me = me }) }
    ensures stands { IfOk result (λ m. O.stands m []) }
{
    O::fresh(alloc, *kind, n, me)
}

/// A replacement at version 0 of this kind.
pub fn new_repl(alloc: Global, me: MemberId, first: &Kind) -> Repl
    ensures { result ≡ record { me = me; version = 0; kind = first.now; made = 0; undelivered = [] } }
{
    Repl::new(alloc, me, *first)
}
