//! A message's payload, shared and never changed, so that a copy takes no room for its bytes.
ghost use Rattle.std.specs.Prelude.{◌≡◌, true, IfOk};
ghost use Rattle.std.specs.List.{list_all};
ghost use Rattle.upd_base.specs.Text.{is_payload, is_printable, payload};

use crate::limits::MAX_PAYLOAD;
use crate::no_memory::NoMemory;
use std::alloc::Global;
use std::marker::Model;
use std::sync::ArcSlice;

/// A payload: 1 to 256 printable ASCII bytes, 0x20 to 0x7e. Copies share the bytes.
#[derive(Debug, Drop)]
pub struct Text {
    bytes: ArcSlice<u8, Global>,
}

impl Model for Text {
    ghost use Rattle.std.specs.Prelude.{ℕ, List, ◌≡◌, true};
    ghost use Rattle.std.specs.Arc.{arc_slice_items};
    ghost use Rattle.upd_base.specs.Text.{is_payload};

    ghost Value = { List ℕ };

    ghost view = { λ t. arc_slice_items t.bytes };

    ghost invariant = { λ t. is_payload (arc_slice_items t.bytes) ≡ true };
}

impl Text {
    /// None exactly where the bytes are no payload.
    pub fn new(alloc: Global, bytes: &[u8]) -> Result<Option<Text>, NoMemory>
        ensures { IfOk result (λ found. found ≡ payload bytes.now) }
    {
        if !is_payload(bytes) {
            return Ok(None);
        }
        let bytes = ArcSlice::from_slice(alloc, bytes)?;
        Ok(Some(Text { bytes }))
    }

    /// The list of its bytes.
    pub fn bytes(&self) -> &[u8]
        ensures { result.now ≡ self.now }
    {
        self.bytes.as_slice()
    }

    /// The payload keeps its limits: a law, for a caller that holds it borrowed.
    pub fn keeps_limits(&self)
        ensures { is_payload self.now ≡ true }
    {
        let _bytes = self.bytes.as_slice();
    }

    /// The same payload, over the same bytes in memory.
    pub fn copy(&self) -> Result<Text, NoMemory>
        ensures { IfOk result (λ text. text ≡ self.now) }
    {
        let bytes = self.bytes.clone()?;
        Ok(Text { bytes })
    }
}

impl PartialEq for Text {
    ghost use Rattle.std.specs.Prelude.{nat_eq};
    ghost use Rattle.std.specs.Cmp as Cmp;
    ghost use Rattle.std.specs.Cmp.Lexicographic.{pointwise, nat_list_eq_equiv};

    ghost eq = { λ x y. pointwise nat_eq x y };

    ghost laws = { Cmp.partial_equiv_from_equiv nat_list_eq_equiv };

    fn eq(&self, other: &Text) -> bool {
        self.bytes() == other.bytes()
    }
}

impl Eq for Text {
    ghost use Rattle.std.specs.Cmp.Lexicographic.{nat_list_eq_equiv};

    ghost laws = { nat_list_eq_equiv };
}

/// Whether the bytes are a payload.
fn is_payload(bytes: &[u8]) -> bool
    ensures { result ≡ is_payload bytes.now }
{
    if bytes.is_empty() || bytes.len() > MAX_PAYLOAD {
        return false;
    }
    all_printable(bytes)
}

fn all_printable(bytes: &[u8]) -> bool
    ensures { result ≡ list_all is_printable bytes.now }
{
    bytes.iter().all(|byte| is_printable(*byte))
}

/// Whether a payload may hold the byte: printable ASCII, 0x20 to 0x7e.
pub fn is_printable(byte: u8) -> bool
    ensures { result ≡ is_printable byte }
{
    0x20 <= byte && byte <= 0x7e
}
