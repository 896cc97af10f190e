//! A run with protocol replacement among broadcasts: the message that missed the switch is broadcast again.
ghost use Rattle.std.specs.Prelude.{◌≡◌, [], ◌∷◌, length};
ghost use Rattle.upd_base.specs.declared.kind.Kind.TheVariants.{Lamport};
ghost use Rattle.group_run.specs.Run.{IsGroupRun};
ghost use Rattle.group_run.specs.Settled.{IsSettled};
ghost use Rattle.group_rows.specs.Outcome.{logs_in, versions_in, kinds_in};
ghost use Rattle.group_rows.specs.Kinds.{two_kinds};
ghost use Rattle.group_rows.specs.ChangeBetweenMessages.{plan, events, log};

/// A message, a change from the sequencer to timestamps, and a message that was asked in the version that ended.
///
/// Member 1 broadcasts the last message again in version 1, and there it is delivered once, at both. What version 0
/// ordered of it behind the switch is dropped at both.
pub fn row()
    ensures run { IsGroupRun two_kinds plan events }
    ensures length { length events ≡ 16 }
    ensures logs { logs_in plan events ≡ log ∷ log ∷ [] }
    ensures versions { versions_in plan events ≡ 1 ∷ 1 ∷ [] }
    ensures kinds { kinds_in plan events ≡ Lamport ∷ Lamport ∷ [] }
    ensures settled { IsSettled two_kinds plan events }
{}
