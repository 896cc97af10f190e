//! A run with two concurrent replacements of the protocol: one takes effect, at both members the same.
ghost use Rattle.std.specs.Prelude.{◌≡◌, [], ◌∷◌, length};
ghost use Rattle.upd_base.specs.declared.item.Item.TheVariants.{Switch};
ghost use Rattle.upd_base.specs.declared.kind.Kind.TheVariants.{Lamport};
ghost use Rattle.group_run.specs.Ordered.{accepted_in};
ghost use Rattle.group_run.specs.Run.{IsGroupRun};
ghost use Rattle.group_run.specs.Settled.{IsSettled};
ghost use Rattle.group_rows.specs.Outcome.{logs_in, versions_in, kinds_in};
ghost use Rattle.group_rows.specs.Kinds.{two_kinds};
ghost use Rattle.group_rows.specs.OvertakenChange.{plan, events, log};

/// Two changes of one version: the first that is ordered ends it, and the other is overtaken and stands in no log, though it
/// was accepted.
pub fn row()
    ensures run { IsGroupRun two_kinds plan events }
    ensures length { length events ≡ 8 }
    ensures logs { logs_in plan events ≡ log ∷ log ∷ [] }
    ensures versions { versions_in plan events ≡ 1 ∷ 1 ∷ [] }
    ensures kinds { kinds_in plan events ≡ Lamport ∷ Lamport ∷ [] }
    ensures overtaken { accepted_in plan events ≡ Switch 1 0 Lamport ∷ Switch 0 0 Lamport ∷ [] }
    ensures settled { IsSettled two_kinds plan events }
{}
