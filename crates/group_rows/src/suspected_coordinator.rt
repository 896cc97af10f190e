//! A run by consensus in which the first coordinator is suspected and then trusted again: the second round decides.
ghost use Rattle.std.specs.Prelude.{◌≡◌, [], ◌∷◌, length};
ghost use Rattle.upd_base.specs.declared.kind.Kind.TheVariants.{Consensus};
ghost use Rattle.group_run.specs.Run.{IsGroupRun, kind_in, log_in, part, version_in};
ghost use Rattle.group_run.specs.Settled.{IsSettled};
ghost use Rattle.group_rows.specs.SuspectedCoordinator.{by_consensus, plan, events, log};

/// Two members by consensus. Member 1 suspects member 0, the coordinator of the first round, and sends a message.
///
/// It refuses in the first round before it hears a proposal, so that round ends without a decision though the coordinator
/// proposed. Member 1 coordinates the second round, which decides, and trusts member 0 again before it does. Both deliver the
/// message; the run has 25 events, with which it is settled.
pub fn row()
    ensures run { IsGroupRun by_consensus plan events }
    ensures length { length events ≡ 25 }
    ensures first_log { log_in by_consensus plan events 0 ≡ log }
    ensures second_log { log_in by_consensus plan events 1 ≡ log }
    ensures first_version { version_in by_consensus plan events 0 ≡ 0 }
    ensures second_version { version_in by_consensus plan events 1 ≡ 0 }
    ensures kind { kind_in by_consensus plan events 1 ≡ Consensus }
    ensures trusts { (part by_consensus plan events 1).suspects ≡ [] }
    ensures settled { IsSettled by_consensus plan events }
{}
