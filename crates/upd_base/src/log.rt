//! A member's delivery log, append only; room reserved beforehand lets it grow without a request for memory.
ghost use Rattle.std.specs.Prelude.{◌≡◌, ◌↔◌, ◌<◌, ◌≤◌, ◌+◌, IsTrue, [], ◌∷◌, ◌++◌, length, slice_get, Some, OnOk, OnErr};
ghost use Rattle.upd_base.specs.Log.{Logged};

use crate::entry::Entry;
use crate::no_memory::NoMemory;
use std::alloc::Global;
use std::marker::Model;

/// What a member delivered, in order.
#[derive(Drop)]
pub struct Log {
    kept: Vec<Entry>,
}

impl Model for Log {
    ghost use Rattle.std.specs.Prelude.{◌-◌, vec_len, vec_capacity};
    ghost use Rattle.upd_base.specs.Log.{Logged};

    ghost Value = { Logged };

    ghost view = { λ l. record { entries = l.kept.items; spare = vec_capacity l.kept - vec_len l.kept } };
}

impl Log {
    /// An empty log, which takes no memory yet.
    pub fn new(alloc: Global) -> Log
        ensures { result.entries ≡ [] }
    {
        Log {
            kept: Vec::new(alloc),
        }
    }

    /// Appends. After want of memory the log is as it was.
    pub fn push(&mut self, entry: Entry) -> Result<(), NoMemory>
        ensures ok { OnOk result (self.new.entries ≡ self.old.entries ++ entry ∷ []) }
        ensures err { OnErr result (self.new.entries ≡ self.old.entries) }
    {
        self.kept.push(entry)?;
        Ok(())
    }

    /// How many entries there are.
    pub fn len(&self) -> usize
        ensures { result ≡ length self.now.entries }
    {
        self.kept.len()
    }

    /// Whether there is no entry.
    pub fn is_empty(&self) -> bool
        ensures { IsTrue result ↔ (self.now.entries ≡ []) }
    {
        self.kept.is_empty()
    }

    /// The entry at this place, counted from 0.
    pub fn at(&self, i: usize) -> &Entry
        requires { i < length self.now.entries }
        ensures { slice_get self.now.entries i ≡ Some result.now }
    {
        &self.kept[i]
    }

    /// All entries, the oldest first.
    pub fn entries(&self) -> &[Entry]
        ensures { result.now ≡ self.now.entries }
    {
        self.kept.as_slice()
    }

    /// Makes room for so many entries more.
    pub fn reserve(&mut self, more: usize) -> Result<(), NoMemory>
        ensures same { self.new.entries ≡ self.old.entries }
        ensures spare { OnOk result (more ≤ self.new.spare) }
    {
        self.kept.reserve(more)?;
        Ok(())
    }

    /// Appends into room that was made before. Takes no memory.
    pub fn push_ready(&mut self, entry: Entry)
        requires { 1 ≤ self.old.spare }
        ensures entries { self.new.entries ≡ self.old.entries ++ entry ∷ [] }
        ensures spare { self.old.spare ≤ self.new.spare + 1 }
    {
        self.kept.push_reserved(entry);
    }
}
