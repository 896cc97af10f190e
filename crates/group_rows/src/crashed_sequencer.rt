//! A run with a crash of the fixed sequencer: what it has ordered is delivered, what it was asked later is not.
ghost use Rattle.std.specs.Prelude.{◌≡◌, [], ◌∷◌, true, false, length};
ghost use Rattle.upd_base.specs.declared.item.Item.TheVariants.{Msg};
ghost use Rattle.upd_base.specs.declared.kind.Kind.TheVariants.{Sequencer};
ghost use Rattle.group_run.specs.Run.{IsGroupRun};
ghost use Rattle.group_run.specs.Settled.{IsSettled};
ghost use Rattle.group_rows.specs.Outcome.{logs_in, versions_in, kinds_in, crashes_in, undelivered_in};
ghost use Rattle.group_rows.specs.Kinds.{two_kinds};
ghost use Rattle.group_rows.specs.Texts.{b};
ghost use Rattle.group_rows.specs.CrashedSequencer.{plan, events, log};

/// The sequencer crashes after it ordered one message: its frames are still received, and the message that was asked of it
/// later stays undelivered. The log of a crashed member begins the others'.
pub fn row()
    ensures run { IsGroupRun two_kinds plan events }
    ensures length { length events ≡ 6 }
    ensures logs { logs_in plan events ≡ [] ∷ log ∷ log ∷ [] }
    ensures versions { versions_in plan events ≡ 0 ∷ 0 ∷ 0 ∷ [] }
    ensures kinds { kinds_in plan events ≡ Sequencer 0 ∷ Sequencer 0 ∷ Sequencer 0 ∷ [] }
    ensures crashed { crashes_in plan events ≡ true ∷ false ∷ false ∷ [] }
    ensures undelivered { undelivered_in plan events ≡ [] ∷ [] ∷ (Msg 2 0 b ∷ []) ∷ [] }
    ensures settled { IsSettled two_kinds plan events }
{}
