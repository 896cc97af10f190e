//! The outcome of a call on a shared group: made and answered, or put off since the member is full.
use upd_base::Answer;

/// What became of a call.
#[derive(Clone, Copy, Debug, PartialEq, Eq)]
pub enum Offer {
    /// It was made, and got this answer.
    Answered(Answer),
    /// It was not made: its answer would be that the member is full.
    NotNow,
}
