//! Worked rows: group runs of the sequencer kinds, the kind by timestamps and, in one, the kind by consensus, computed by
//! the definitions of a group run.
//!
//! The laws of group runs speak of rules that keep the laws of a kind, and of runs. Here are such rules and runs, and
//! what the definitions make of them. A definition that broke a rule of the group would be refused by one of these rows.
//! Each function is without a body: its contract is the row.
#![tactic(auto)]

pub mod change_between_messages;
pub mod change_to_the_same_kind;
pub mod crashed_sender;
pub mod crashed_sequencer;
pub mod early_frame;
pub mod full_member;
pub mod no_calls;
pub mod one_member;
pub mod one_turn;
pub mod overtaken_change;
pub mod refused_events;
pub mod suspected_coordinator;
pub mod two_messages;

ghost use Rattle.group_run.specs.Laws.{BoundsAll, FulfilsAll, KeepsOrder};
ghost use Rattle.group_rows.specs.Kinds.{two_kinds};

/// The two kinds keep agreement, integrity, fulfilment and the bound: so what the laws of group runs ask for can be had.
pub fn two_kinds_keep_the_laws()
    ensures order { KeepsOrder two_kinds }
    ensures fulfilment { FulfilsAll two_kinds }
    ensures bound { BoundsAll two_kinds }
{}
