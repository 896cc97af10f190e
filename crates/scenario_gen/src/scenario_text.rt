//! A scenario made from a seed; by contract its text is read as the plan of that seed.
ghost use Rattle.std.specs.Prelude.{◌≡◌, ◌≤◌, Ok, IfOk};
ghost use Rattle.scenario.specs.Reading.{reading};
ghost use Rattle.scenario_gen.specs.Generate.{generated};
ghost use Rattle.scenario_gen.specs.Spelling.{spelt};

use crate::draw::words;
use crate::write::write_scenario;
use json::Writer;
use std::alloc::Global;
use upd_base::NoMemory;

/// The scenario of a seed with so many calls, as one line of JSON: five members that begin with consensus, and four
/// threads that share the calls in turn. The seed's generator gives a word for each call, which chooses the member and, for
/// the last call of each 32, the kind that it changes to. The other calls send `m` and their number.
pub fn generate(alloc: Global, seed: u64, calls: u16) -> Result<Vec<u8>, NoMemory>
    requires { calls ≤ 1000 }
    ensures text { IfOk result (λ text. text.items ≡ spelt seed calls) }
    ensures plan { IfOk result (λ text. reading text.items ≡ Ok (generated seed calls)) }
{
    let words = words(alloc, seed, calls)?;
    let mut out = Writer::new(Vec::new(alloc));
    write_scenario(alloc, &mut out, words.as_slice())?;
    let mut text = out.into_inner();
    text.push(b'\n')?;
    Ok(text)
}
