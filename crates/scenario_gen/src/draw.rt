//! What the words of a seed choose.
ghost use Rattle.std.specs.Prelude.{◌≡◌, ◌<◌, IfOk};
ghost use Rattle.scenario_gen.specs.Generate.{kind_by, member_by, words};

use rand_core::SeedableRng;
use rand_core::utils::NextWord;
use rand_pcg::Pcg32;
use std::alloc::Global;
use upd_base::{Kind, MemberId, NoMemory};

/// The first words of a seed's generator.
pub(crate) fn words(alloc: Global, seed: u64, calls: u16) -> Result<Vec<u32>, NoMemory>
    ensures { IfOk result (λ ws. ws.items ≡ words seed calls) }
{
    let mut generator = Pcg32::seed_from_u64(seed);
    let mut words = Vec::new(alloc);
    for _call in 0..calls {
        words.push(generator.next_word())?;
    }
    Ok(words)
}

/// The member that makes the call of a word.
pub(crate) fn member_by(word: u32) -> u8
    ensures { result ≡ member_by word }
{
    (word % 5) as u8
}

/// The kind that the change of a word asks for.
pub(crate) fn kind_by(word: u32) -> Kind
    ensures { result ≡ kind_by word }
{
    match word / 5 % 3 {
        0 => Kind::Sequencer(member((word / 15 % 5) as u8)),
        1 => Kind::Lamport,
        _ => Kind::Consensus,
    }
}

fn member(id: u8) -> MemberId
    requires { id < 5 }
    ensures { result ≡ id }
{
    match MemberId::new(id) {
        Some(member) => member,
        None => unreachable!(),
    }
}
