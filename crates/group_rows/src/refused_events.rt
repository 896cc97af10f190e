//! Events that are no run.

ghost use Rattle.std.specs.Prelude.{[], ◌∷◌};
ghost use Rattle.upd_base.specs.declared.answer.Answer.TheVariants.{Accepted, Done};
ghost use Rattle.upd_base.specs.declared.event.Event.TheVariants.{Call, Receive, Release};
ghost use Rattle.group_run.specs.Run.{IsGroupRun};
ghost use Rattle.group_rows.specs.CrashedSequencer as crash;
ghost use Rattle.group_rows.specs.EarlyFrame.{plan};
ghost use Rattle.group_rows.specs.Kinds.{two_kinds};
ghost use Rattle.group_rows.specs.Outcome.{BeginsNoRun};

/// A receipt made twice: the first two events are a run, and with the third, which finds no frame, they begin none.
pub fn repeated_receipt()
    ensures before { IsGroupRun two_kinds plan (Receive 0 0 ∷ Call 0 0 0 (Accepted 0) ∷ []) }
    ensures refused { BeginsNoRun plan (Receive 0 0 ∷ Receive 0 0 ∷ Call 0 0 0 (Accepted 0) ∷ []) }
{}

/// A call with another number, another answer, before its turn, of another member or of no thread; a release where nothing
/// is held; a receipt from no member; and one at a crashed member.
pub fn other_events()
    ensures number { BeginsNoRun plan (Call 0 0 0 (Accepted 1) ∷ []) }
    ensures answer { BeginsNoRun plan (Call 0 0 0 Done ∷ []) }
    ensures index { BeginsNoRun plan (Call 0 1 0 (Accepted 0) ∷ []) }
    ensures member { BeginsNoRun plan (Call 0 0 1 (Accepted 0) ∷ []) }
    ensures thread { BeginsNoRun plan (Call 2 0 0 (Accepted 0) ∷ []) }
    ensures nothing_held { BeginsNoRun plan (Release 0 ∷ Call 0 0 0 (Accepted 0) ∷ []) }
    ensures no_sender { BeginsNoRun plan (Receive 2 0 ∷ Call 0 0 0 (Accepted 0) ∷ []) }
    ensures crashed { BeginsNoRun crash.plan (Receive 1 0 ∷ Call 0 1 0 Done ∷ Call 0 0 1 (Accepted 0) ∷ []) }
{}
