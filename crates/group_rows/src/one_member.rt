//! The least run that delivers: a group of one, which broadcasts to itself.
ghost use Rattle.std.specs.Prelude.{◌≡◌, [], ◌∷◌, length};
ghost use Rattle.upd_base.specs.declared.kind.Kind.TheVariants.{Sequencer};
ghost use Rattle.group_run.specs.Run.{IsGroupRun};
ghost use Rattle.group_run.specs.Settled.{IsSettled};
ghost use Rattle.group_rows.specs.Outcome.{logs_in, versions_in, kinds_in};
ghost use Rattle.group_rows.specs.Kinds.{two_kinds};
ghost use Rattle.group_rows.specs.OneMember.{plan, events, log};

/// One member, its own sequencer, sends a message: a call, and two receipts over the link from the member to itself.
pub fn row()
    ensures run { IsGroupRun two_kinds plan events }
    ensures length { length events ≡ 3 }
    ensures logs { logs_in plan events ≡ log ∷ [] }
    ensures versions { versions_in plan events ≡ 0 ∷ [] }
    ensures kinds { kinds_in plan events ≡ Sequencer 0 ∷ [] }
    ensures settled { IsSettled two_kinds plan events }
{}
