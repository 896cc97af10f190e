//! Lines in memory: faithful ones that fail where a list says, or never, and ones that lie.
#![tactic(auto)]

mod honest_bytes;
mod lie_lines;
mod line_fail;
mod mem_line;
mod mem_lines;
mod sure_lines;

pub use lie_lines::{LieLine, LieLines};
pub use line_fail::{LineFail, Way};
pub use mem_line::MemLine;
pub use mem_lines::MemLines;
pub use sure_lines::{SureLine, SureLines};
