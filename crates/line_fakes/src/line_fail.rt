//! Planned faults, for tests: which call on which link's line fails, be it a put, a get or the making of the line.
ghost use Rattle.std.specs.Prelude.{◌≡◌, ◌&&◌, ◌==◌};
ghost use Rattle.line_fakes.specs.Fails.{same_way, is_for};

use upd_base::MemberId;

/// A way to call a line or its maker.
#[derive(Clone, Copy, Debug, PartialEq, Eq)]
pub enum Way {
    Make,
    Put,
    Get,
}

/// The call of this number, from 1, of this way on the line from one member to another fails.
#[derive(Clone, Copy, Debug, PartialEq, Eq)]
pub struct LineFail {
    pub from: MemberId,
    pub to: MemberId,
    pub way: Way,
    pub nth: u64,
}

fn same_way(one: Way, other: Way) -> bool
    ensures { result ≡ same_way one other }
{
    match (one, other) {
        (Way::Make, Way::Make) | (Way::Put, Way::Put) | (Way::Get, Way::Get) => true,
        _ => false,
    }
}

/// Whether it is of this way, on the line from one member to another.
pub(crate) fn is_for(fail: &LineFail, way: Way, from: MemberId, to: MemberId) -> bool
    ensures { result ≡ is_for way from to fail.now }
{
    same_way(fail.way, way) && fail.from.get() == from.get() && fail.to.get() == to.get()
}
