//! The limit of a journal's text.

/// The most bytes of a journal's text.
pub const MAX_TEXT: usize = 134_217_728;
