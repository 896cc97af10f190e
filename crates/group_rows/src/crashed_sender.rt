//! A run with a crash, settled though an accepted message was lost with its sender.
ghost use Rattle.std.specs.Prelude.{◌≡◌, [], ◌∷◌, true, false, length};
ghost use Rattle.upd_base.specs.declared.item.Item.TheVariants.{Msg};
ghost use Rattle.upd_base.specs.declared.kind.Kind.TheVariants.{Sequencer, Lamport};
ghost use Rattle.group_run.specs.Run.{IsGroupRun};
ghost use Rattle.group_run.specs.Settled.{IsSettled};
ghost use Rattle.group_rows.specs.Outcome.{logs_in, versions_in, kinds_in, crashes_in, undelivered_in};
ghost use Rattle.group_rows.specs.Kinds.{two_kinds};
ghost use Rattle.group_rows.specs.Texts.{b};
ghost use Rattle.group_rows.specs.CrashedSender.{plan, events, log};

/// A member crashes whose message was ordered behind a switch: nobody broadcasts it again, and it stands in no log.
pub fn row()
    ensures run { IsGroupRun two_kinds plan events }
    ensures length { length events ≡ 9 }
    ensures logs { logs_in plan events ≡ log ∷ log ∷ [] ∷ [] }
    ensures versions { versions_in plan events ≡ 1 ∷ 1 ∷ 0 ∷ [] }
    ensures kinds { kinds_in plan events ≡ Lamport ∷ Lamport ∷ Sequencer 0 ∷ [] }
    ensures crashed { crashes_in plan events ≡ false ∷ false ∷ true ∷ [] }
    ensures undelivered { undelivered_in plan events ≡ [] ∷ [] ∷ (Msg 2 0 b ∷ []) ∷ [] }
    ensures settled { IsSettled two_kinds plan events }
{}
