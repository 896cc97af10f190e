//! What was sent on a link of a group is what the receiver's modules took, what it holds, and what it has not received.
#![tactic(auto)]

ghost use Rattle.group_run.specs.Laws.{KeepsLinkOrder};

/// On each link and in each version, the bodies processed, then those held, then those not yet received are all that was
/// sent, in the order of sending.
///
/// It holds for every list of events, and whatever the kinds do. What was received on a link begins what was sent on it,
/// since a receipt takes the frame that is next. Of the frames received, those of one version were processed or are
/// held, and a frame is processed only where none of its link and version waits: so those processed came before those
/// held. A release takes the first frame of all whose version is reached, which is the first held one of its own link and
/// version.
pub fn links_keep_order()
    ensures { KeepsLinkOrder }
{}
