//! What a lock with history may guard: a value with a ghost list of entries, whose length can be asked.
ghost use Rattle.std.specs.Prelude.{◌≡◌, List, length};

/// A value that stands for a list of entries.
pub trait Kept {
    type Entry;

    // the list that the value stands for
    ghost list: { Self → List Self.Entry };

    /// The length of the list.
    fn count(&self) -> u64
        ensures { result ≡ length (list self.now) };
}

/// A vector stands for its items.
impl<E> Kept for Vec<E> {
    type Entry = E;

    ghost list = { λ v. v.items };

    fn count(&self) -> u64 {
        self.len() as u64
    }
}
