ghost use Rattle.std.specs.Prelude.{true, ◌≡◌, ◌<◌};
ghost use Rattle.upd_base.specs.Kind.{KindFits};

use super::*;
use consensus_laws::consensus_laws;
use consensus_order::ConsensusOrder;
use fifo_net::first_in_first_out;
use lamport_order::LamportOrder;
use lamport_rules::lamport_laws;
use order_trait::{Ordering, Outbox, every_module_run};
use sequencer_order::SequencerOrder;
use sequencer_rules::sequencer_laws;
use std::alloc::Global;
use std::test::*;
use upd_base::{Body, Item, Kind, MemberId, Text};

// One of two members: its module, what it is to send, and what it has delivered.
#[derive(Drop)]
struct Side<O: Ordering> {
    part: O,
    out: Outbox,
    delivered: Vec<Item>,
    ghost two: { (O.seat part).members ≡ 2 },
}

impl<O: Ordering> Side<O> {
    fn new(alloc: Global, part: O, out: Outbox) -> Side<O>
        requires { (O.seat part).members ≡ 2 }
    {
        Side {
            part,
            out,
            delivered: Vec::new(alloc),
        }
    }

    fn take(&mut self, alloc: Global, from: MemberId, body: &Body) -> Result<(), Fail>
        requires { from < 2 }
    {
        if body.fits(2) && body.counts_from_one() {
            self.part
                .receive(alloc, from, body, &mut self.out, &mut self.delivered)?;
        }
        Ok(())
    }
}

// The next body of a member goes to the one that it is for.
fn pass_on<O: Ordering>(
    alloc: Global,
    from: MemberId,
    sent: Option<(MemberId, Body)>,
    first: &mut Side<O>,
    second: &mut Side<O>,
) -> Result<(), Fail>
    requires { from < 2 }
{
    let Some((to, body)) = sent else {
        return Ok(());
    };
    if to.get() == 0 {
        first.take(alloc, from, &body)
    } else {
        second.take(alloc, from, &body)
    }
}

// Both take what is sent, a body of each in turn; how many items each has delivered then.
fn exchange<O: Ordering>(
    alloc: Global,
    zero: MemberId,
    one: MemberId,
    mut first: Side<O>,
    mut second: Side<O>,
) -> Result<(usize, usize), Fail>
    requires zero_fits { zero < 2 }
    requires one_fits { one < 2 }
{
    for _ in 0..20 {
        let sent = first.out.drain_first();
        pass_on(alloc, zero, sent, &mut first, &mut second)?;
        let sent = second.out.drain_first();
        pass_on(alloc, one, sent, &mut first, &mut second)?;
    }
    Ok((first.delivered.len(), second.delivered.len()))
}

// Of two members the second broadcasts a message; how many items each has delivered once all is taken.
fn both_deliver<O: Ordering>(alloc: Global, kind: Kind) -> Result<(usize, usize), Fail>
    requires served { O.is_served kind ≡ true }
    requires kind_fits { KindFits 2 kind }
{
    let (Some(zero), Some(one)) = (MemberId::new(0), MemberId::new(1)) else {
        return Ok((0, 0));
    };
    let Some(payload) = Text::new(alloc, b"a")? else {
        return Ok((0, 0));
    };
    let message = Item::Msg {
        origin: one,
        number: 0,
        payload,
    };
    let first = O::fresh(alloc, kind, 2, zero)?;
    let mut second = O::fresh(alloc, kind, 2, one)?.copy(alloc)?;
    let mut out = Outbox::new(alloc);
    second.suspect(alloc, zero, true, &mut out)?;
    second.suspect(alloc, zero, false, &mut out)?;
    second.broadcast(alloc, &message, &mut out)?;
    if O::serves(kind) && first.kind() == kind && second.kind() == kind {
        let first = Side::new(alloc, first, Outbox::new(alloc));
        exchange(alloc, zero, one, first, Side::new(alloc, second, out))
    } else {
        Ok((0, 0))
    }
}

#[test]
fn the_second_member_is_heard(rt: HostRuntime) -> Result<(), Fail> {
    let alloc = rt.alloc();
    let Some(zero) = MemberId::new(0) else {
        return Ok(());
    };
    let sequencer = Kind::Sequencer(zero);
    assert_eq!(rt; both_deliver::<SequencerOrder>(alloc, sequencer)?, (1, 1));
    assert_eq!(rt; both_deliver::<LamportOrder>(alloc, Kind::Lamport)?, (1, 1));
    assert_eq!(rt;
        both_deliver::<ConsensusOrder>(alloc, Kind::Consensus)?,
        (1, 1)
    );
    assert_eq!(rt; both_deliver::<Module>(alloc, sequencer)?, (1, 1));
    assert_eq!(rt; both_deliver::<Module>(alloc, Kind::Lamport)?, (1, 1));
    assert_eq!(rt; both_deliver::<Module>(alloc, Kind::Consensus)?, (1, 1));
    Ok(())
}

#[test]
fn the_theorems_are_there(rt: HostRuntime) {
    first_in_first_out::<u8, u8>();
    every_module_run();
    sequencer_laws();
    lamport_laws();
    consensus_laws();
    every_kind_keeps_the_laws();
    a_run_of_each_kind();
    assert!(rt; Module::serves(Kind::Consensus));
}
