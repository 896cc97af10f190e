//! A run in which nothing is delivered, so that a member comes to its limit of undelivered messages.
ghost use Rattle.std.specs.Prelude.{◌≡◌, [], ◌∷◌, true, false, length};
ghost use Rattle.upd_base.specs.declared.kind.Kind.TheVariants.{Sequencer};
ghost use Rattle.group_run.specs.Run.{IsGroupRun};
ghost use Rattle.group_run.specs.Settled.{IsSettled};
ghost use Rattle.group_rows.specs.Outcome.{logs_in, versions_in, kinds_in, crashes_in};
ghost use Rattle.group_rows.specs.Kinds.{two_kinds};
ghost use Rattle.group_rows.specs.FullMember.{plan, events};

/// The sequencer crashes at once, and the other member sends 65 messages: 64 are accepted and undelivered, and the last is
/// refused as full.
pub fn row()
    ensures run { IsGroupRun two_kinds plan events }
    ensures length { length events ≡ 66 }
    ensures logs { logs_in plan events ≡ [] ∷ [] ∷ [] }
    ensures versions { versions_in plan events ≡ 0 ∷ 0 ∷ [] }
    ensures kinds { kinds_in plan events ≡ Sequencer 0 ∷ Sequencer 0 ∷ [] }
    ensures crashed { crashes_in plan events ≡ true ∷ false ∷ [] }
    ensures settled { IsSettled two_kinds plan events }
{}
