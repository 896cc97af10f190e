//! The lines of a group, as a maker makes them.
ghost use Rattle.std.specs.Prelude.{ℕ, ◌≡◌, ◌*◌, ◌/◌, ◌%◌, ◌<◌, ◌≤◌, All, IfOk};
ghost use Rattle.line_rules.specs.Lines.{IsEvenLine};
ghost use Rattle.top_calls.specs.Made.{AreMade, IsMade};

use std::alloc::Global;
use upd_base::{EdgeFault, MemberId, NoMemory};
use upd_lines::LineMaker;

fn member(number: u8) -> MemberId
    requires { number < 7 }
    ensures { result ≡ number }
{
    MemberId::new(number).unwrap()
}

/// The line of a link, None where it can't be made.
fn line_of<M: LineMaker>(
    maker: &mut M,
    from: MemberId,
    to: MemberId,
) -> Result<Option<M::Line>, NoMemory>
    ensures made { IfOk result (λ line. IsMade M.Line.Line (M.faults maker.old from to) (M.faults maker.new from to) line) }
    ensures later { (i j : ℕ) → M.faults maker.old i j ≤ M.faults maker.new i j }
{
    match maker.make_line(from, to) {
        Ok(line) => Ok(Some(line)),
        Err(EdgeFault::Failed) => Ok(None),
        Err(EdgeFault::NoMemory) => Err(NoMemory),
    }
}

/// The line at a place of those of n members.
fn line_at<M: LineMaker>(maker: &mut M, n: u8, place: u8) -> Result<Option<M::Line>, NoMemory>
    requires few { n ≤ 7 }
    requires place { place < n * n }
    ensures made { IfOk result (λ line. IsMade M.Line.Line (M.faults maker.old (place / n) (place % n)) (M.faults maker.new (place / n) (place % n)) line) }
    ensures later { (i j : ℕ) → M.faults maker.old i j ≤ M.faults maker.new i j }
{
    line_of(maker, member(place / n), member(place % n))
}

/// Makes a line for each link of n members, in the order of `from * n + to`.
pub(crate) fn make_lines<M: LineMaker>(
    alloc: Global,
    n: u8,
    maker: &mut M,
) -> Result<Vec<Option<M::Line>>, NoMemory>
    requires { n ≤ 7 }
    ensures made { IfOk result (λ lines. AreMade M.Line.Line n (M.faults maker.old) (M.faults maker.new) lines.items) }
    ensures even { IfOk result (λ lines. All (IsEvenLine M.Line.Line) lines.items) }
{
    let mut lines = Vec::new(alloc);
    for place in 0..n * n {
        lines.push(line_at(maker, n, place)?)?;
    }
    Ok(lines)
}
