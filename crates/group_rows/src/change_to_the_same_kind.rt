//! A run of one member whose protocol is replaced by itself: the switch ends a version all the same.
ghost use Rattle.std.specs.Prelude.{◌≡◌, [], ◌∷◌, length};
ghost use Rattle.upd_base.specs.declared.kind.Kind.TheVariants.{Sequencer};
ghost use Rattle.group_run.specs.Run.{IsGroupRun};
ghost use Rattle.group_run.specs.Settled.{IsSettled};
ghost use Rattle.group_rows.specs.Outcome.{logs_in, versions_in, kinds_in};
ghost use Rattle.group_rows.specs.Kinds.{two_kinds};
ghost use Rattle.group_rows.specs.ChangeToTheSameKind.{plan, events, log};

/// A change to the kind that is bound binds a fresh module of it.
pub fn row()
    ensures run { IsGroupRun two_kinds plan events }
    ensures length { length events ≡ 11 }
    ensures logs { logs_in plan events ≡ log ∷ [] }
    ensures versions { versions_in plan events ≡ 1 ∷ [] }
    ensures kinds { kinds_in plan events ≡ Sequencer 0 ∷ [] }
    ensures settled { IsSettled two_kinds plan events }
{}
