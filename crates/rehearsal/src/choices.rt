//! The list of all moves a scheduler may choose from: a call of each thread, a receipt on each link, a release.
ghost use Rattle.std.specs.Prelude.{ℕ, ◌≡◌, ◌<◌, ◌≤◌, ◌++◌, [], map, length, IfOk, OnOk, All};
ghost use Rattle.std.specs.List.{flat_map};
ghost use Rattle.group_run.specs.Part.{below};
ghost use Rattle.group_world.specs.declared.moves.Move.TheVariants.{Call, Receive, Release};
ghost use Rattle.rehearsal.specs.Choices.{choices, receipts_from};

use group_world::Move;
use std::alloc::Global;
use upd_base::{MemberId, NoMemory, Plan};

/// All choices of a plan in their order: calls by thread, receipts by (from, to), releases by member.
pub fn choices(alloc: Global, plan: &Plan) -> Result<Vec<Move>, NoMemory>
    requires { plan.now.members ≤ 7 }
    ensures { IfOk result (λ v. v.items ≡ choices plan.now) }
{
    let mut out = Vec::new(alloc);
    let n = plan.members();
    push_calls(&mut out, plan.threads())?;
    push_receipts(&mut out, n)?;
    push_releases(&mut out, n)?;
    Ok(out)
}

fn push_calls(out: &mut Vec<Move>, threads: u8) -> Result<(), NoMemory>
    ensures { OnOk result (out.new.items ≡ out.old.items ++ map (λ thread. Call thread) (below threads)) }
{
    for thread in 0..threads {
        out.push(Move::Call(thread))?;
    }
    Ok(())
}

fn push_receipts(out: &mut Vec<Move>, n: u8) -> Result<(), NoMemory>
    requires { n ≤ 7 }
    ensures { OnOk result (out.new.items ≡ out.old.items ++ flat_map (receipts_from n) (below n)) }
{
    for from in 0..n {
        if let Some(from) = MemberId::new(from) {
            push_receipts_from(out, n, from)?;
        }
    }
    Ok(())
}

fn push_receipts_from(out: &mut Vec<Move>, n: u8, from: MemberId) -> Result<(), NoMemory>
    requires { n ≤ 7 }
    ensures { OnOk result (out.new.items ≡ out.old.items ++ receipts_from n from) }
{
    for to in 0..n {
        if let Some(to) = MemberId::new(to) {
            out.push(Move::Receive(from, to))?;
        }
    }
    Ok(())
}

fn push_releases(out: &mut Vec<Move>, n: u8) -> Result<(), NoMemory>
    requires { n ≤ 7 }
    ensures { OnOk result (out.new.items ≡ out.old.items ++ map (λ at. Release at) (below n)) }
{
    for at in 0..n {
        if let Some(at) = MemberId::new(at) {
            out.push(Move::Release(at))?;
        }
    }
    Ok(())
}
