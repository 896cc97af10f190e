//! The FIFO channels of a whole group, self-links included, with room made ahead for sends that cannot be refused.
ghost use Rattle.std.specs.Prelude.{ℕ, ◌≡◌, ◌<◌, ◌≤◌, ◌+◌, ◌-◌, ◌*◌, [], ◌∷◌, ◌++◌, List, OnOk, OnErr, IfOk, option_to_list, option_copied, slice_get};
ghost use Rattle.std.specs.VecDeque.{deque_len, deque_capacity};
ghost use Rattle.upd_base.specs.declared.frame.Frame.{Frame};
ghost use Rattle.fifo_link.specs.Links.{on_link, spare_of, Carries, LeavesOthers};

use std::alloc::Global;
use std::collections::VecDeque;
use std::marker::Model;
use upd_base::{Frame, MemberId, NoMemory};

/// The links of a group: for each ordered pair of members one ring of frames, first in, first out.
/// Members are below the number of members by condition.
#[derive(Drop)]
pub struct Links {
    members: u8,
    rings: Vec<VecDeque<Frame>>,
}

impl Model for Links {
    ghost use Rattle.std.specs.Prelude.{◌≡◌, ◌≤◌, ◌-◌, ◌*◌, map, length};
    ghost use Rattle.std.specs.VecDeque.{deque_len, deque_capacity};
    ghost use Rattle.fifo_link.specs.Links.{Linked};

    ghost Value = { Linked };

    ghost view = { λ l. record { members = l.members; waiting = map (λ r. r.items) l.rings.items; spares = map (λ r. deque_capacity r - deque_len r) l.rings.items } };

    ghost invariant = { λ l. (l.members ≤ 7) × (length l.rings.items ≡ l.members * l.members) };
}

impl Links {
    /// Empty links for n members.
    pub fn new(alloc: Global, n: u8) -> Result<Links, NoMemory>
        requires { n ≤ 7 }
        ensures members { IfOk result (λ l. l.members ≡ n) }
        ensures empty { IfOk result (λ l. (i j : ℕ) → i < n → j < n → on_link l i j ≡ []) }
    {
        let mut rings = Vec::new(alloc);
        for _ in 0..n * n {
            rings.push(VecDeque::new(alloc))?;
        }
        Ok(Links { members: n, rings })
    }

    /// Of how many members these are the links.
    pub fn members(&self) -> u8
        ensures value { result ≡ self.now.members }
        ensures few { result ≤ 7 }
    {
        self.members
    }

    fn place(&self, from: MemberId, to: MemberId) -> usize
        requires from_fits { from < self.now.members }
        requires to_fits { to < self.now.members }
        ensures { result ≡ from * self.now.members + to }
    {
        let _ = &self.members;
        from.get() as usize * self.members as usize + to.get() as usize
    }

    /// Appends a frame. After want of memory the link is as it was.
    pub fn send(&mut self, from: MemberId, to: MemberId, frame: Frame) -> Result<(), NoMemory>
        requires from_fits { from < self.old.members }
        requires to_fits { to < self.old.members }
        ensures members { self.new.members ≡ self.old.members }
        ensures ok { OnOk result (on_link self.new from to ≡ on_link self.old from to ++ frame ∷ []) }
        ensures err { OnErr result (on_link self.new from to ≡ on_link self.old from to) }
        ensures sent { OnOk result ((sent taken : List Frame) → Carries self.old from to sent taken → Carries self.new from to (sent ++ frame ∷ []) taken) }
        ensures others { LeavesOthers self.old self.new from to }
    {
        let place = self.place(from, to);
        push(&mut self.rings[place], frame)
    }

    /// The frame that was sent first of those that wait; None exactly where all that was sent was
    /// taken.
    pub fn next(&self, from: MemberId, to: MemberId) -> Option<&Frame>
        requires from_fits { from < self.now.members }
        requires to_fits { to < self.now.members }
        ensures { option_copied result ≡ slice_get (on_link self.now from to) 0 }
    {
        let place = self.place(from, to);
        first(&self.rings[place])
    }

    /// Takes the frame that `next` gives.
    pub fn take(&mut self, from: MemberId, to: MemberId) -> Option<Frame>
        requires from_fits { from < self.old.members }
        requires to_fits { to < self.old.members }
        ensures members { self.new.members ≡ self.old.members }
        ensures first { result ≡ slice_get (on_link self.old from to) 0 }
        ensures rest { on_link self.old from to ≡ option_to_list result ++ on_link self.new from to }
        ensures taken { (sent taken : List Frame) → Carries self.old from to sent taken → Carries self.new from to sent (taken ++ option_to_list result) }
        ensures spare { spare_of self.old from to ≤ spare_of self.new from to }
        ensures others { LeavesOthers self.old self.new from to }
    {
        let place = self.place(from, to);
        pop(&mut self.rings[place])
    }

    /// Makes room for so many frames more on a link. The links are as they were, also after want of
    /// memory.
    pub fn reserve(&mut self, from: MemberId, to: MemberId, more: usize) -> Result<(), NoMemory>
        requires from_fits { from < self.old.members }
        requires to_fits { to < self.old.members }
        ensures members { self.new.members ≡ self.old.members }
        ensures same { self.new.waiting ≡ self.old.waiting }
        ensures room { OnOk result (more ≤ spare_of self.new from to) }
        ensures spare { spare_of self.old from to ≤ spare_of self.new from to }
        ensures others { LeavesOthers self.old self.new from to }
    {
        let place = self.place(from, to);
        reserve(&mut self.rings[place], more)
    }

    /// Appends a frame into room that was made before. Takes no memory.
    pub fn send_ready(&mut self, from: MemberId, to: MemberId, frame: Frame)
        requires from_fits { from < self.old.members }
        requires to_fits { to < self.old.members }
        requires room { 1 ≤ spare_of self.old from to }
        ensures members { self.new.members ≡ self.old.members }
        ensures frames { on_link self.new from to ≡ on_link self.old from to ++ frame ∷ [] }
        ensures sent { (sent taken : List Frame) → Carries self.old from to sent taken → Carries self.new from to (sent ++ frame ∷ []) taken }
        ensures spare { spare_of self.old from to ≤ spare_of self.new from to + 1 }
        ensures others { LeavesOthers self.old self.new from to }
    {
        let place = self.place(from, to);
        push_ready(&mut self.rings[place], frame);
    }
}

fn push(ring: &mut VecDeque<Frame>, frame: Frame) -> Result<(), NoMemory>
    ensures ok { OnOk result (ring.new.items ≡ ring.old.items ++ frame ∷ []) }
    ensures err { OnErr result (ring.new.items ≡ ring.old.items) }
{
    ring.push_back(frame)?;
    Ok(())
}

fn push_ready(ring: &mut VecDeque<Frame>, frame: Frame)
    requires { 1 ≤ deque_capacity ring.old - deque_len ring.old }
    ensures items { ring.new.items ≡ ring.old.items ++ frame ∷ [] }
    ensures spare { deque_capacity ring.old - deque_len ring.old ≤ deque_capacity ring.new - deque_len ring.new + 1 }
{
    ring.push_back_reserved(frame);
}

fn pop(ring: &mut VecDeque<Frame>) -> Option<Frame>
    ensures first { result ≡ slice_get ring.old.items 0 }
    ensures rest { ring.old.items ≡ option_to_list result ++ ring.new.items }
    ensures spare { deque_capacity ring.old - deque_len ring.old ≤ deque_capacity ring.new - deque_len ring.new }
{
    ring.pop_front()
}

fn reserve(ring: &mut VecDeque<Frame>, more: usize) -> Result<(), NoMemory>
    ensures same { ring.new.items ≡ ring.old.items }
    ensures room { OnOk result (more ≤ deque_capacity ring.new - deque_len ring.new) }
    ensures spare { deque_capacity ring.old - deque_len ring.old ≤ deque_capacity ring.new - deque_len ring.new }
{
    ring.reserve(more)?;
    Ok(())
}

fn first(ring: &VecDeque<Frame>) -> Option<&Frame>
    ensures { option_copied result ≡ slice_get ring.now.items 0 }
{
    ring.front()
}
