//! From the place of a line, in the table of all ordered pairs of members, back to its sender and receiver.
ghost use Rattle.std.specs.Prelude.{◌≡◌, ◌*◌, ◌<◌, ◌≤◌};
ghost use Rattle.group_lines.specs.Visits.{LinkStands};

use upd_base::{MemberId, member_at};

/// The link whose line stands at this place, among those of so many members.
pub fn link_at(members: u8, place: usize) -> (MemberId, MemberId)
    requires few { members ≤ 7 }
    requires place { place < members * members }
    ensures { LinkStands members result.0 result.1 place }
{
    let count = usize::from(members);
    let from = member_at((place / count) as u8);
    let to = member_at((place % count) as u8);
    (from, to)
}
