//! A set of pairs, row and number, in little space: numbers that come in succession lie in one run.
ghost use Rattle.std.specs.Prelude.{ℕ, false, true, ◌≡◌, ◌<◌, ◌≤◌, ◌+◌, ◌||◌, [], not, length, set, slice_get, Some, IfOk, IfSome, OnOk, OnErr};
ghost use Rattle.number_runs.specs.Runs.{covers, holds, is_pair, longer};

use std::alloc::Global;
use std::marker::Model;
use upd_base::NoMemory;

/// The numbers of a row from the first to the last.
#[derive(Clone, Copy, Debug)]
pub(crate) struct Run {
    pub row: u8,
    pub first: u64,
    pub last: u64,
}

/// A set of numbers, each in a row.
///
/// A number behind the last of a run lengthens it; any other begins a run of its own, and runs that meet are
/// not joined. A copy and a question cost as much as there are runs.
#[derive(Drop)]
pub struct NumberRuns {
    runs: Vec<Run>,
}

impl Model for NumberRuns {
    ghost use Rattle.std.specs.Prelude.{List, All, ◌≤◌};
    ghost use Rattle.number_runs.specs.declared.runs.Run.{Run};

    ghost Value = { List Run };

    ghost view = { λ s. s.runs.items };

    ghost invariant = { λ s. All (λ run. run.first ≤ run.last) s.runs.items };
}

impl NumberRuns {
    /// The empty set.
    pub fn new(alloc: Global) -> NumberRuns
        ensures { (q : ℕ × ℕ) → holds result q ≡ false }
    {
        NumberRuns {
            runs: Vec::new(alloc),
        }
    }

    /// Whether a number of a row is in it.
    pub fn contains(&self, row: u8, number: u64) -> bool
        ensures { result ≡ holds self.now (row, number) }
    {
        self.runs.iter().any(|run| covers(run, row, number))
    }

    /// Puts a number of a row in, and tells whether it is new. After `NoMemory` nothing has changed.
    pub fn insert(&mut self, row: u8, number: u64) -> Result<bool, NoMemory>
        ensures new { IfOk result (λ new. new ≡ not (holds self.old (row, number))) }
        ensures holds { OnOk result ((q : ℕ × ℕ) → holds self.new q ≡ (is_pair (row, number) q || holds self.old q)) }
        ensures unchanged { OnErr result (self.new ≡ self.old) }
    {
        if self.contains(row, number) {
            return Ok(false);
        }
        match ends_before(self.runs.as_slice(), row, number) {
            Some(at) => lengthen(&mut self.runs, at, number),
            None => self.runs.push(Run {
                row,
                first: number,
                last: number,
            })?,
        }
        Ok(true)
    }

    /// The same set.
    pub fn copy(&self, alloc: Global) -> Result<NumberRuns, NoMemory>
        ensures { IfOk result (λ copy. copy ≡ self.now) }
    {
        Ok(NumberRuns {
            runs: Vec::from_slice(alloc, self.runs.as_slice())?,
        })
    }
}

/// Whether a number of a row is in a run.
fn covers(run: &Run, row: u8, number: u64) -> bool
    ensures { result ≡ covers run.now (row, number) }
{
    run.row == row && run.first <= number && number <= run.last
}

/// The place of a run of the row whose last number is the one before this.
fn ends_before(runs: &[Run], row: u8, number: u64) -> Option<usize>
    ensures ends { IfSome result (λ at. (run : Run) → slice_get runs.now at ≡ Some run → (run.row ≡ row) × (run.last + 1 ≡ number)) }
    ensures within { IfSome result (λ at. at < length runs.now) }
{
    let mut at = 0;
    while at < runs.len() {
        if runs[at].row == row && runs[at].last < number && number - runs[at].last == 1 {
            return Some(at);
        }
        at += 1;
    }
    None
}

/// A run ends at this number.
fn lengthen(runs: &mut Vec<Run>, at: usize, number: u64)
    requires { at < length runs.old.items }
    ensures { (run : Run) → slice_get runs.old.items at ≡ Some run → runs.new.items ≡ set runs.old.items at (longer run number) }
{
    runs[at].last = number;
}
