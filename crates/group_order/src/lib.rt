//! Composition, first part: every group run is ordered.
#![tactic(auto)]

ghost use Rattle.group_run.specs.Laws.{CountsVersions, LimitsVersions, OrdersRuns, SwitchesKinds, WholeSegments};

/// For kinds that keep agreement and integrity every group run is ordered: of the logs of two members one begins the
/// other, no origin and number stands twice in a log, and each entry was accepted by its origin.
///
/// Of two members let the first have the lower version or the same. Both ended the versions below it, so by agreement
/// these segments are the same; in its newest version what the two modules delivered agrees, so the segments do. Within a
/// version integrity says that nothing is delivered twice, and what is broadcast again in a later version stands in no
/// segment of an earlier one. What was delivered was broadcast by its origin, which broadcasts only what it accepted.
pub fn runs_are_ordered()
    ensures { OrdersRuns }
{}

/// For such kinds the version of a member is the number of switches in its log, and each version has the kind of the switch
/// that ended the one below.
///
/// Each version below the newest ended by a switch, and a segment has no other. The newest has not ended: it would have
/// been left in the turn that ended it, and a fresh module has delivered nothing.
pub fn versions_count_switches()
    ensures count { CountsVersions }
    ensures kinds { SwitchesKinds }
{}

/// For such kinds and a plan whose changes name served kinds, what counts of a version is what its module delivered up to
/// and with its first switch. And whatever the kinds do, no version is above the highest.
///
/// A change is accepted below the highest version alone, and is broadcast in the version in which it was accepted. So each
/// delivered switch ends its version, if no other did.
pub fn segments_are_whole()
    ensures whole { WholeSegments }
    ensures limit { LimitsVersions }
{}
