//! The units of total order broadcast: messages and protocol switches, ordered together, named by origin and number.
ghost use Rattle.std.specs.Prelude.{◌≡◌, IfOk};
ghost use Rattle.upd_base.specs.Item.{has_id, id_of, item_fits, number_of, origin_of, stands_before, switch_of};

use crate::kind::Kind;
use crate::member::MemberId;
use crate::no_memory::NoMemory;
use crate::text::Text;

/// What is ordered: a message, or a switch to another kind. Its origin and number name it.
#[derive(Debug, Drop, PartialEq, Eq)]
pub enum Item {
    Msg {
        origin: MemberId,
        number: u32,
        payload: Text,
    },
    Switch {
        origin: MemberId,
        number: u32,
        kind: Kind,
    },
}

impl Item {
    /// The same item; a payload's bytes are shared.
    pub fn copy(&self) -> Result<Item, NoMemory>
        ensures { IfOk result (λ item. item ≡ self.now) }
    {
        match self {
            Item::Msg {
                origin,
                number,
                payload,
            } => Ok(Item::Msg {
                origin: *origin,
                number: *number,
                payload: payload.copy()?,
            }),
            Item::Switch {
                origin,
                number,
                kind,
            } => Ok(Item::Switch {
                origin: *origin,
                number: *number,
                kind: *kind,
            }),
        }
    }

    /// The member that made it.
    pub fn origin(&self) -> MemberId
        ensures { result ≡ origin_of self.now }
    {
        match self {
            Item::Msg { origin, .. } | Item::Switch { origin, .. } => *origin,
        }
    }

    /// Its number among its origin's items.
    pub fn number(&self) -> u32
        ensures { result ≡ number_of self.now }
    {
        match self {
            Item::Msg { number, .. } | Item::Switch { number, .. } => *number,
        }
    }

    /// The kind that a switch names.
    pub fn switch(&self) -> Option<Kind>
        ensures { result ≡ switch_of self.now }
    {
        match self {
            Item::Msg { .. } => None,
            Item::Switch { kind, .. } => Some(*kind),
        }
    }

    /// Whether the two have one origin and one number.
    pub fn has_id_of(&self, other: &Item) -> bool
        ensures { result ≡ has_id (id_of other.now) self.now }
    {
        self.origin() == other.origin() && self.number() == other.number()
    }

    /// Whether it stands before the other by (origin, number).
    pub fn stands_before(&self, other: &Item) -> bool
        ensures { result ≡ stands_before self.now other.now }
    {
        self.origin() < other.origin()
            || (self.origin() == other.origin() && self.number() < other.number())
    }

    /// Whether each member that it names is below n.
    pub fn fits(&self, n: u8) -> bool
        ensures { result ≡ item_fits n self.now }
    {
        match self {
            Item::Msg { origin, .. } => origin.get() < n,
            Item::Switch { origin, kind, .. } => origin.get() < n && kind.fits(n),
        }
    }
}
