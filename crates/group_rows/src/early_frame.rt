//! A run, told event by event, in which a frame of the next version comes before its receiver has switched.
ghost use Rattle.std.specs.Prelude.{◌≡◌, [], ◌∷◌, length};
ghost use Rattle.upd_base.specs.declared.kind.Kind.TheVariants.{Sequencer};
ghost use Rattle.group_run.specs.Run.{IsGroupRun};
ghost use Rattle.group_run.specs.Settled.{IsSettled};
ghost use Rattle.group_rows.specs.Outcome.{logs_in, versions_in, kinds_in, moments_in};
ghost use Rattle.group_rows.specs.Kinds.{two_kinds};
ghost use Rattle.group_rows.specs.EarlyFrame.{plan, events, log, told};

/// A frame of version 1 arrives at member 1, which is at version 0, and is held; a frame of version 0 behind it on the same
/// link is processed. Then member 1 switches and releases the held frame.
///
/// Event by event: which member it is, what it sends, what member 1 holds, and what each member has delivered.
pub fn row()
    ensures run { IsGroupRun two_kinds plan events }
    ensures length { length events ≡ 18 }
    ensures logs { logs_in plan events ≡ log ∷ log ∷ [] }
    ensures versions { versions_in plan events ≡ 1 ∷ 1 ∷ [] }
    ensures kinds { kinds_in plan events ≡ Sequencer 1 ∷ Sequencer 1 ∷ [] }
    ensures moments { moments_in plan 1 events ≡ told }
    ensures settled { IsSettled two_kinds plan events }
{}
