//! The guarded value while a turn lasts, as a linear type, so that no turn is left open by oversight.

/// The value, for as long as a pass is in its turn. It has no `Drop`, so it can't be let go by oversight: it goes back
/// by `TurnLock::finish`, and until then all others wait.
pub struct Turn<T> {
    pub value: T,
}
