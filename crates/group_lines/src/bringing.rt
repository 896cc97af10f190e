//! One frame through a line, and the line's state after it: more bytes came, or it is down, lied or stopped.
ghost use Rattle.std.specs.Prelude.{ℕ, ◌≡◌, ◌+◌, ◌^◌, ◌<◌, ◌≤◌, ◌++◌, List, [], ◌∷◌, Some, None, Ok, Err, IfOk, IfSome, IfNone, OnOk, OnErr, OnSome};
ghost use Rattle.upd_base.specs.declared.frame.Frame.{Frame};
ghost use Rattle.upd_lines.specs.Line.{Told};
ghost use Rattle.upd_frame.specs.Spelling.{IsFrame};
ghost use Rattle.line_rules.specs.declared.line_state.TheConstants.{MAX_FRAME};
ghost use Rattle.line_rules.specs.Given.{IsEven};
ghost use Rattle.line_rules.specs.LineState.{IsAt, IsInService, IsSetAside, IsServing};
ghost use Rattle.line_rules.specs.declared.line_state.LineState.TheVariants.{Missing, Serving, Stopped};

use frame_carriage::{CarryFault, carry};
use line_rules::{Lie, LineState};
use std::alloc::Global;
use upd_base::{Frame, NoMemory};
use upd_lines::Line;

/// Brings the frame that a link has next over its line, over which so many bytes came before. None where the line failed or lied,
/// which sets it aside. At want of memory the line is stopped.
pub fn bring<L: Line>(
    alloc: Global,
    line: &mut L,
    state: &mut LineState,
    count: u64,
    frame: &Frame,
) -> Result<Option<Frame>, NoMemory>
    requires serving { state.old ≡ Serving count }
    requires even { IsEven (L.told line.old) }
    requires frame { IsFrame frame.now }
    requires few { count + MAX_FRAME < 2 ^ 64 }
    ensures same { IfOk result (λ came. IfSome came (λ f. f ≡ frame.now)) }
    ensures whole { IfOk result (λ came. OnSome came ((old : Told) (before : ℕ) (frames : List Frame) → IsServing frames old (L.told line.old) count → IsAt (frames ++ frame.now ∷ []) [] old (L.told line.new) before (L.faults line.new) state.new)) }
    ensures even { IfOk result (λ came. OnSome came (IsEven (L.told line.new))) }
    ensures counted { IfOk result (λ came. OnSome came ((bytes : ℕ) × (bytes ≤ MAX_FRAME) × (state.new ≡ Serving (count + bytes)))) }
    ensures serves { IfOk result (λ came. OnSome came (IsInService state.new)) }
    ensures there { state.new ≡ Missing → ⊥ }
    ensures set_aside { IfOk result (λ came. IfNone came (IsSetAside state.new)) }
    ensures stopped { OnErr result (state.new ≡ Stopped) }
    ensures part { IfOk result (λ came. IfNone came ((old : Told) (before : ℕ) (frames : List Frame) → before ≤ L.faults line.old → IsServing frames old (L.told line.old) count → IsAt frames (frame.now ∷ []) old (L.told line.new) before (L.faults line.new) state.new)) }
    ensures err { OnErr result ((old : Told) (before : ℕ) (frames : List Frame) → before ≤ L.faults line.old → IsServing frames old (L.told line.old) count → IsAt frames (frame.now ∷ []) old (L.told line.new) before (L.faults line.new) state.new) }
    ensures later { L.faults line.old ≤ L.faults line.new }
{
    match carry(alloc, line, frame) {
        Ok(came) => {
            *state = LineState::Serving(count + came.bytes);
            Ok(Some(came.frame))
        }
        Err(CarryFault::Down) => {
            *state = LineState::Down;
            Ok(None)
        }
        Err(CarryFault::Lied { at, put, got }) => {
            let at = count + at;
            *state = LineState::Lied(Lie { at, put, got });
            Ok(None)
        }
        Err(CarryFault::NoMemory) => {
            *state = LineState::Stopped;
            Err(NoMemory)
        }
    }
}
