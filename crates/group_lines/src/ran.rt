//! What a run over lines gives back to its caller.
use line_rules::RunEnd;
use order_trait::Ordering;
use run_journal::Journal;
use upd_lines::Line;

/// A run over lines: its journal, the lines at their places, and how it ended.
#[derive(Drop)]
pub struct Ran<O: Ordering, L: Line> {
    pub journal: Journal<O>,
    pub lines: Vec<Option<L>>,
    pub end: RunEnd,
}
