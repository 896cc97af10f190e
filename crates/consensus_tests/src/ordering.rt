//! Groups of one, two and three members whose bodies are carried by hand, with suspicions.
ghost use Rattle.std.specs.Prelude.{◌≡◌, ◌≤◌, ◌<◌};
ghost use Rattle.consensus_order.specs.ConsensusOrder.{seat_of};

use crate::given::member;
use consensus_order::ConsensusOrder;
use order_trait::{Ordering, Outbox};
use std::alloc::Global;
use std::test::*;
use upd_base::{Body, Item, Kind, MemberId, Text};

// A member with what it has to send and what it has delivered.
#[derive(Drop)]
struct Node {
    members: u8,
    me: MemberId,
    part: ConsensusOrder,
    out: Outbox,
    delivered: Vec<Item>,
    ghost seated: { me < members },
    ghost counted: { (seat_of part).members ≡ members },
    ghost placed: { (seat_of part).me ≡ me },
}

impl Node {
    fn new(alloc: Global, members: u8, me: MemberId) -> Result<Node, Fail> {
        if members > 7 || me.get() >= members {
            return Err("a member of a group")?;
        }
        Ok(Node {
            members,
            me,
            part: ConsensusOrder::fresh(alloc, Kind::Consensus, members, me)?,
            out: Outbox::new(alloc),
            delivered: Vec::new(alloc),
        })
    }

    fn broadcast(&mut self, alloc: Global, text: &[u8]) -> Result<(), Fail> {
        let Some(payload) = Text::new(alloc, text)? else {
            return Err("a text")?;
        };
        let item = Item::Msg {
            origin: self.me,
            number: 0,
            payload,
        };
        self.part.broadcast(alloc, &item, &mut self.out)?;
        Ok(())
    }

    fn drain_first(&mut self) -> Option<(MemberId, Body)> {
        self.out.drain_first()
    }

    // A copy takes the body in its place.
    fn receive(&mut self, alloc: Global, from: MemberId, body: &Body) -> Result<(), Fail> {
        if from.get() >= self.members || !body.fits(self.members) || !body.counts_from_one() {
            return Err("a body of the group")?;
        }
        let mut copy = self.part.copy(alloc)?;
        copy.receive(alloc, from, body, &mut self.out, &mut self.delivered)?;
        self.part = copy;
        Ok(())
    }

    fn suspect(&mut self, alloc: Global, who: MemberId, on: bool) -> Result<(), Fail> {
        if who.get() >= self.members || who == self.me {
            return Err("another member")?;
        }
        self.part.suspect(alloc, who, on, &mut self.out)?;
        Ok(())
    }
}

// The first body of each member goes to its receiver, so many times; how many bodies were taken.
fn carry(alloc: Global, nodes: &mut [Node], times: u32) -> Result<usize, Fail> {
    let mut taken: usize = 0;
    for _ in 0..times {
        for place in 0..nodes.len() {
            let sender = &mut nodes[place];
            let from = sender.me;
            let Some((to, body)) = sender.drain_first() else {
                continue;
            };
            let Some(receiver) = nodes.get_mut(usize::from(to.get())) else {
                return Err("a member")?;
            };
            receiver.receive(alloc, from, &body)?;
            taken = taken.saturating_add(1);
        }
    }
    Ok(taken)
}

// Whether a member has delivered one message of another, and nothing else.
fn has_one(node: &Node, origin: MemberId, text: &[u8]) -> bool {
    match node.delivered.as_slice() {
        [
            Item::Msg {
                origin: from,
                number: 0,
                payload,
            },
        ] => *from == origin && payload.bytes() == text,
        _ => false,
    }
}

fn name_of(body: &Body) -> &'static str {
    match body {
        Body::Rb { .. } => "Rb",
        Body::Est { .. } => "Est",
        Body::Prop { .. } => "Prop",
        Body::Reply { .. } => "Reply",
        Body::Next { .. } => "Next",
        Body::Decide { .. } => "Decide",
        _ => "another kind's",
    }
}

// One member hears itself: the item, then its estimate, proposal, reply and decision.
#[test]
fn one_member(rt: HostRuntime) -> Result<(), Fail> {
    let alloc = rt.alloc();
    assert!(rt; ConsensusOrder::serves(Kind::Consensus) && !ConsensusOrder::serves(Kind::Lamport));
    let me = member(0)?;
    let mut node = Node::new(alloc, 1, me)?;
    assert!(rt; node.part.kind() == Kind::Consensus);
    node.broadcast(alloc, b"a")?;
    let mut said = Vec::new(alloc);
    for _ in 0..6 {
        let Some((_, body)) = node.drain_first() else {
            break;
        };
        said.push(name_of(&body))?;
        node.receive(alloc, me, &body)?;
    }
    assert!(rt; said.as_slice() == ["Rb", "Est", "Prop", "Reply", "Decide"].as_slice());
    assert!(rt; has_one(&node, me, b"a"));
    Ok(())
}

// Of two members that suspect each other no round gathers two that agree, and they go on without an end. Once
// they trust each other again, one does.
#[test]
fn two_that_suspect_each_other(rt: HostRuntime) -> Result<(), Fail> {
    let alloc = rt.alloc();
    let (zero, one) = (member(0)?, member(1)?);
    let mut nodes = Vec::new(alloc);
    nodes.push(Node::new(alloc, 2, zero)?)?;
    nodes.push(Node::new(alloc, 2, one)?)?;
    nodes[0].suspect(alloc, one, true)?;
    nodes[1].suspect(alloc, zero, true)?;
    nodes[0].broadcast(alloc, b"a")?;
    assert!(rt; carry(alloc, nodes.as_mut_slice(), 100)? >= 28);
    assert!(rt; nodes.iter().all(|node| node.delivered.is_empty()));
    nodes[0].suspect(alloc, one, false)?;
    nodes[1].suspect(alloc, zero, false)?;
    carry(alloc, nodes.as_mut_slice(), 100)?;
    assert!(rt; nodes.iter().all(|node| has_one(node, zero, b"a")));
    Ok(())
}

// Of three members one suspects the first coordinator: the second round decides.
#[test]
fn three_of_which_one_suspects(rt: HostRuntime) -> Result<(), Fail> {
    let alloc = rt.alloc();
    let (zero, one, two) = (member(0)?, member(1)?, member(2)?);
    let mut nodes = Vec::new(alloc);
    nodes.push(Node::new(alloc, 3, zero)?)?;
    nodes.push(Node::new(alloc, 3, one)?)?;
    nodes.push(Node::new(alloc, 3, two)?)?;
    nodes[2].suspect(alloc, zero, true)?;
    nodes[1].broadcast(alloc, b"a")?;
    assert_eq!(rt; carry(alloc, nodes.as_mut_slice(), 100)?, 39);
    assert!(rt; nodes.iter().all(|node| has_one(node, one, b"a")));
    Ok(())
}
