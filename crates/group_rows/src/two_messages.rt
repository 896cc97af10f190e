//! A run with concurrent broadcasts of two threads, which three members deliver in the same order.
ghost use Rattle.std.specs.Prelude.{◌≡◌, [], ◌∷◌, length};
ghost use Rattle.upd_base.specs.declared.kind.Kind.TheVariants.{Sequencer};
ghost use Rattle.group_run.specs.Run.{IsGroupRun};
ghost use Rattle.group_run.specs.Settled.{IsSettled};
ghost use Rattle.group_rows.specs.Outcome.{logs_in, versions_in, kinds_in};
ghost use Rattle.group_rows.specs.Kinds.{two_kinds};
ghost use Rattle.group_rows.specs.TwoMessages.{plan, events, log};

/// Three members with a sequencer; two threads, each of which sends a message.
///
/// Ten events: two calls, two receipts at the sequencer, and six receipts of what it ordered. Both messages stand in every
/// log, in one order.
pub fn row()
    ensures run { IsGroupRun two_kinds plan events }
    ensures length { length events ≡ 10 }
    ensures logs { logs_in plan events ≡ log ∷ log ∷ log ∷ [] }
    ensures versions { versions_in plan events ≡ 0 ∷ 0 ∷ 0 ∷ [] }
    ensures kinds { kinds_in plan events ≡ Sequencer 0 ∷ Sequencer 0 ∷ Sequencer 0 ∷ [] }
    ensures settled { IsSettled two_kinds plan events }
{}
