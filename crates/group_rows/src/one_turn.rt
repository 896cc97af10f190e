//! One member's answers and turns.

ghost use Rattle.std.specs.Prelude.{◌≡◌, [], ◌∷◌};
ghost use Rattle.fifo_net.specs.Net.{Called, Took};
ghost use Rattle.upd_base.specs.declared.answer.Answer.TheVariants.{BadKind, BadMember, Crashed, Done, VersionLimit};
ghost use Rattle.upd_base.specs.declared.body.Body.TheVariants.{Ord};
ghost use Rattle.upd_base.specs.declared.call.Call.TheVariants.{Change, Crash, Suspect, Trust};
ghost use Rattle.upd_base.specs.declared.item.Item.TheVariants.{Msg, Switch};
ghost use Rattle.upd_base.specs.declared.kind.Kind.TheVariants.{Lamport, Sequencer};
ghost use Rattle.order_trait.specs.Runs.{Broadcast, Suspect as Suspects, Trust as Trusts};
ghost use Rattle.group_run.specs.Answer.{answer};
ghost use Rattle.group_run.specs.Group.{Makes};
ghost use Rattle.group_run.specs.Part.{opening};
ghost use Rattle.group_run.specs.Turn.{turn_of};
ghost use Rattle.group_rows.specs.OneTurn.{last, switching, three};
ghost use Rattle.group_rows.specs.Texts.{a, b};

/// A member is suspected by others alone, and a kind names a member of the group; a bad kind is told before the limit of
/// versions, and a crash before all.
pub fn answers()
    ensures no_member { answer three 0 opening (Suspect 5) ≡ BadMember }
    ensures itself { answer three 0 opening (Suspect 0) ≡ BadMember }
    ensures bad_kind { answer three 0 opening (Change (Sequencer 4)) ≡ BadKind }
    ensures limit { answer three 0 last (Change Lamport) ≡ VersionLimit }
    ensures bad_kind_first { answer three 0 last (Change (Sequencer 3)) ≡ BadKind }
    ensures crash { answer three 0 opening Crash ≡ Done }
    ensures crashed { answer three 0 (turn_of three 0 (Called (Makes Crash) ∷ [])).part (Change (Sequencer 4)) ≡ Crashed }
{}

/// At a switch, in one turn: the old module takes the body, and the fresh one is told of each suspicion by ascending member
/// and then broadcasts each undelivered message by ascending number. The steps stand with the newest first.
pub fn entering()
    ensures { (turn_of three 0 switching).steps ≡
        record { version = 1; input = Called (Broadcast (Msg 0 2 b)) }
        ∷ record { version = 1; input = Called (Broadcast (Msg 0 0 a)) }
        ∷ record { version = 1; input = Called (Suspects 2) }
        ∷ record { version = 1; input = Called (Suspects 1) }
        ∷ record { version = 0; input = Took 0 (Ord 1 (Switch 0 1 Lamport)) }
        ∷ [] }
{}

/// The end of a suspicion goes to each module of the member, by ascending version.
pub fn trusting()
    ensures { (turn_of three 0 (Called (Makes (Trust 2)) ∷ switching)).steps ≡
        record { version = 1; input = Called (Trusts 2) } ∷ record { version = 0; input = Called (Trusts 2) } ∷ [] }
{}
