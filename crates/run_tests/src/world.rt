//! A group of one member, one enabled move at a time.
ghost use Rattle.std.specs.Prelude.{ℕ, List, true, ◌≡◌, ◌<◌, [], ◌∷◌, IfOk, length};
ghost use Rattle.upd_base.specs.Plan.{plan_of};
ghost use Rattle.group_run.specs.Laws.{ServesPlan};
ghost use Rattle.member_rules.specs.Kept.{rules_of};
ghost use Rattle.group_world.specs.Seen.{IsWorldOf, seen_by};

use group_world::{Move, World};
use order_trait::Ordering;
use sequencer_order::SequencerOrder;
use std::alloc::Global;
use std::test::Fail;
use upd_base::{Call, Event, Kind, MemberId, Plan, Step, Text};

// One member sends `a` and then changes.
fn plan_of_one(alloc: Global, me: MemberId) -> Result<Plan, Fail>
    ensures is { IfOk result (λ p. (text : List ℕ) × (p ≡ plan_of 1 (Kind.Sequencer me) ((record { at = me; call = Call.Send text } ∷ record { at = me; call = Call.Change (Kind.Sequencer me) } ∷ []) ∷ []))) }
{
    let payload = Text::new(alloc, b"a")?.ok_or("no payload")?;
    let send = Step {
        at: me,
        call: Call::Send(payload),
    };
    let change = Step {
        at: me,
        call: Call::Change(Kind::Sequencer(me)),
    };
    let steps = vec![in alloc; send, change]?;
    let threads = vec![in alloc; steps]?;
    Ok(Plan::new(1, Kind::Sequencer(me), threads).ok_or("no plan")?)
}

// Makes a move, which must be enabled.
fn make<O: Ordering>(
    alloc: Global,
    world: &mut World<O>,
    plan: &Plan,
    choice: Move,
) -> Result<Event, Fail>
    requires { IsWorldOf O.Ordering plan.now (seen_by world.old) }
    ensures { IsWorldOf O.Ordering plan.now (seen_by world.new) }
{
    if !world.enabled(plan, &choice) {
        return Err(Fail::from("the move is not enabled"));
    }
    Ok(world.step(alloc, plan, choice)?)
}

// The one member makes both calls and receives its own frames: how many entries it has, its version, how many calls were
// made, and whether no frame waits.
fn run_of_one<O: Ordering>(
    alloc: Global,
    plan: &Plan,
    me: MemberId,
) -> Result<(usize, u16, u16, bool), Fail>
    requires first_served { O.is_served plan.now.first ≡ true }
    requires served { ServesPlan (rules_of O.Ordering) plan.now }
    requires one { plan.now.members ≡ 1 }
    requires thread { 0 < length plan.now.threads }
    requires me { me ≡ 0 }
{
    let mut world = World::<O>::opening(alloc, plan)?;
    make(alloc, &mut world, plan, Move::Call(0))?;
    make(alloc, &mut world, plan, Move::Receive(me, me))?;
    make(alloc, &mut world, plan, Move::Receive(me, me))?;
    make(alloc, &mut world, plan, Move::Call(0))?;
    make(alloc, &mut world, plan, Move::Receive(me, me))?;
    make(alloc, &mut world, plan, Move::Receive(me, me))?;
    let member = world.member(me);
    let entries = member.log().len();
    let version = member.version();
    Ok((
        entries,
        version,
        world.made(0),
        world.frame(me, me).is_none(),
    ))
}

#[test]
fn one_member_sends_and_changes(rt: HostRuntime) -> Result<(), Fail> {
    let alloc = rt.alloc();
    let me = MemberId::new(0).ok_or("no member")?;
    let plan = plan_of_one(alloc, me)?;
    let seen = run_of_one::<SequencerOrder>(alloc, &plan, me)?;
    assert_eq!(rt; seen, (2, 1, 2, true));
    Ok(())
}
