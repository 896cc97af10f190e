//! What travels on a link: a protocol's message, marked with the version that it belongs to.
ghost use Rattle.std.specs.Prelude.{◌≡◌, IfOk, IsTrue, ◌↔◌};
ghost use Rattle.upd_base.specs.Body.{body_fits};

use crate::body::Body;
use crate::no_memory::NoMemory;
use std::alloc::Global;

/// A body with the version of its module, at most 1,000.
#[derive(Debug, Drop, PartialEq, Eq)]
pub struct Frame {
    pub version: u16,
    pub body: Body,
}

impl Frame {
    /// The same frame.
    pub fn copy(&self, alloc: Global) -> Result<Frame, NoMemory>
        ensures { IfOk result (λ frame. frame ≡ self.now) }
    {
        Ok(Frame {
            version: self.version,
            body: self.body.copy(alloc)?,
        })
    }

    /// Whether each member that it names is below n.
    pub fn fits(&self, n: u8) -> bool
        ensures { result ≡ body_fits n self.now.body }
    {
        self.body.fits(n)
    }

    /// Whether the two are one frame to the last byte.
    pub fn is_same(&self, other: &Frame) -> bool
        ensures { IsTrue result ↔ (self.now ≡ other.now) }
    {
        self == other
    }
}
