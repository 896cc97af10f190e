//! The empty run: a group of which nothing is asked is settled at once.
ghost use Rattle.std.specs.Prelude.{◌≡◌, [], ◌∷◌, length};
ghost use Rattle.upd_base.specs.declared.kind.Kind.TheVariants.{Lamport};
ghost use Rattle.group_run.specs.Run.{IsGroupRun};
ghost use Rattle.group_run.specs.Settled.{IsSettled};
ghost use Rattle.group_rows.specs.Outcome.{logs_in, versions_in, kinds_in};
ghost use Rattle.group_rows.specs.Kinds.{two_kinds};
ghost use Rattle.group_rows.specs.NoCalls.{plan, events};

/// Two members with timestamps, and no call: the opening is settled.
pub fn row()
    ensures run { IsGroupRun two_kinds plan events }
    ensures length { length events ≡ 0 }
    ensures logs { logs_in plan events ≡ [] ∷ [] ∷ [] }
    ensures versions { versions_in plan events ≡ 0 ∷ 0 ∷ [] }
    ensures kinds { kinds_in plan events ≡ Lamport ∷ Lamport ∷ [] }
    ensures settled { IsSettled two_kinds plan events }
{}
