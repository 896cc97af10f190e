//! The ticket lock: turns go by ticket, each adds at most one entry, and the one pass into which all others were
//! joined closes it, and knows which entries were added.
ghost use Rattle.std.specs.Prelude.{◌≡◌, ℕ, ◌+◌, ◌-◌, ◌<◌, ◌≤◌, ◌%◌, ◌^◌, List, [], ◌∷◌, ◌++◌, length, IfOk, IfErr, Some, None};
ghost use Rattle.turn_lock.specs.declared.pass.TheConstants.{PARTS};
ghost use Rattle.turn_lock.specs.declared.stage.Stage.TheVariants.{Idle, Waits, Turns};
ghost use Rattle.turn_lock.specs.Lists.{IsPrefix, AddsAtMostOne, longer};
ghost use Rattle.turn_lock.specs.Places.{Ascends, merged, new_places};
ghost use Rattle.turn_lock.specs.Stage.{IsInTurn, noted_at};
ghost use Rattle.turn_lock.specs.View.{with_stage, after_turn, both_views};
ghost use Rattle.turn_lock.specs.Seat.{IsOneSeat};

use crate::kept::Kept;
use crate::pass::Pass;
use crate::rule::LockRule;
use crate::steps::{Compare, Draw, Finish, Look, Parts};
use crate::turn::Turn;
use crate::view::View;
use atomic_table::{Refused, Seat, Table};
use std::alloc::{AllocFailed, Global};
use std::snapshot::Snapshot;
use std::sync::Wait;
use std::sync::atomic::{AtomicU64, Ordering};
use std::{array, thread};

/// How many bells there are. The tickets share them in turn, so that a turn that ends wakes few of those that wait.
const BELLS: usize = 64;

/// A lock round a value that stands for a list. Passes take turns on it, and each turn commits one entry or none.
#[derive(Drop)]
pub struct TurnLock<T: Kept> {
    table: Table<Option<T>, View<<T as Kept>::Entry>, Snapshot<T>, LockRule, Global>,
    bells: [AtomicU64; BELLS],
    ghost shaped: { (table.shared.table_id.words ≡ 2) × (table.shared.table_id.slots ≡ 1) },
}

impl<T: Kept> TurnLock<T> {
    ghost use Rattle.turn_lock.specs.Pass.{seen, own, parts, noted, IsIdle, IsTurning};
    ghost use Rattle.turn_lock.specs.TurnLock.{IsPassOf, opening};

    /// A lock round the value, and its first pass, which has seen the value's whole list, owns nothing and has all
    /// `PARTS`. For want of memory the value comes back.
    pub fn make(alloc: Global, value: T) -> Result<(TurnLock<T>, Pass<T>), T>
        ensures opening { IfOk result (λ r. opening r.0 ≡ value) }
        ensures of { IfOk result (λ r. IsPassOf r.0 r.1) }
        ensures idle { IfOk result (λ r. IsIdle r.1) }
        ensures seen { IfOk result (λ r. seen r.1 ≡ T.list value) }
        ensures own { IfOk result (λ r. own r.1 ≡ []) }
        ensures parts { IfOk result (λ r. parts r.1 ≡ PARTS) }
        ensures refused { IfErr result (λ v. v ≡ value) }
    {
        let about = Snapshot::of(&value);
        let mut slots = Vec::new(alloc);
        if let Err(AllocFailed { value }) = slots.push(Some(value)) {
            slots.destroy_empty();
            match value {
                Some(value) => return Err(value),
                None => unreachable!(),
            }
        }
        match Table::new(alloc, &[0, 0], slots, &about) {
            Ok((table, seat)) => {
                let bells = array::from_fn(|_| AtomicU64::new(0));
                Ok((TurnLock { table, bells }, Pass { seat }))
            }
            Err(Refused { mut slots }) => {
                let first = slots.pop();
                slots.destroy_empty();
                match first {
                    Some(Some(value)) => Err(value),
                    Some(None) => unreachable!(),
                    None => unreachable!(),
                }
            }
        }
    }

    /// Splits off a pass with one of the pass's parts, for another thread. It has seen what the pass has, and owns
    /// nothing. It takes no memory, and always returns.
    pub fn split(&self, pass: &mut Pass<T>) -> Pass<T>
        requires of { IsPassOf self.now pass.old }
        requires idle { IsIdle pass.old }
        requires parts { 2 ≤ parts pass.old }
        ensures of { IsPassOf self.now pass.new × IsPassOf self.now result }
        ensures idle { IsIdle pass.new × IsIdle result }
        ensures seen { (seen pass.new ≡ seen pass.old) × (seen result ≡ seen pass.old) }
        ensures own { (own pass.new ≡ own pass.old) × (own result ≡ []) }
        ensures parts { (parts pass.new ≡ parts pass.old - 1) × (parts result ≡ 1) }
    {
        let seat = self.table.shared.split_seat::<Parts>(&mut pass.seat);
        Pass { seat }
    }

    /// Takes another pass in. The pass has then the longer of the two lists seen, of which each is a prefix, the places
    /// of both, no two of them the same, and the parts of both. It takes no memory, and always returns.
    pub fn join(&self, pass: &mut Pass<T>, other: Pass<T>)
        requires of { IsPassOf self.now pass.old × IsPassOf self.now other }
        requires idle { IsIdle pass.old × IsIdle other }
        ensures of { IsPassOf self.now pass.new }
        ensures idle { IsIdle pass.new }
        ensures seen { seen pass.new ≡ longer (seen pass.old) (seen other) }
        ensures prefixes { IsPrefix (seen pass.old) (seen pass.new) × IsPrefix (seen other) (seen pass.new) }
        ensures own { own pass.new ≡ merged (own pass.old) (own other) }
        ensures parts { parts pass.new ≡ parts pass.old + parts other }
    {
        let Pass { seat } = other;
        self.join_seats(&mut pass.seat, seat);
    }

    /// Waits for the pass's turn, and gives the value, whose list begins with what the pass has seen. Nothing is said of
    /// when the turn comes, or whether it does. After 2^64 - 1 turns the tickets are used up, and it waits forever.
    pub fn turn<R: Wait>(&self, rt: &R, pass: &mut Pass<T>) -> Turn<T>
        requires of { IsPassOf self.now pass.old }
        requires idle { IsIdle pass.old }
        ensures of { IsPassOf self.now pass.new }
        ensures turning { IsTurning pass.new }
        ensures noted { noted pass.new ≡ T.list result.value }
        ensures begins { IsPrefix (seen pass.old) (T.list result.value) }
        ensures seen { seen pass.new ≡ seen pass.old }
        ensures own { own pass.new ≡ own pass.old }
        ensures parts { parts pass.new ≡ parts pass.old }
    {
        let ticket = self.draw(rt, &mut pass.seat);
        Turn {
            value: self.take(rt, &mut pass.seat, ticket),
        }
    }

    /// Ends the turn, in which at most one entry was added. The value goes back, its list is what the pass has then seen,
    /// and the new entry's place, if there is one, is the pass's own. It takes no memory, and always returns.
    pub fn finish(&self, pass: &mut Pass<T>, turn: Turn<T>)
        requires of { IsPassOf self.now pass.old }
        requires turning { IsTurning pass.old }
        requires adds { AddsAtMostOne (noted pass.old) (T.list turn.value) }
        ensures of { IsPassOf self.now pass.new }
        ensures idle { IsIdle pass.new }
        ensures seen { seen pass.new ≡ T.list turn.value }
        ensures own { own pass.new ≡ own pass.old ++ new_places (noted pass.old) (T.list turn.value) }
        ensures parts { parts pass.new ≡ parts pass.old }
    {
        let Turn { value } = turn;
        self.give_back(&mut pass.seat, value);
    }

    /// The value, once the pass has all parts, so that every other was joined into it. The list begins with what the
    /// pass has seen. It has the entries that it had when the lock was made, those at the pass's own places, and no
    /// others. It always returns.
    pub fn close(self, pass: Pass<T>) -> T
        requires of { IsPassOf self pass }
        requires idle { IsIdle pass }
        requires parts { parts pass ≡ PARTS }
        ensures seen { IsPrefix (seen pass) (T.list result) }
        ensures opening { IsPrefix (T.list (opening self)) (T.list result) }
        ensures own { own pass ≡ new_places (T.list (opening self)) (T.list result) }
    {
        let TurnLock { table, .. } = self;
        let Pass { seat } = pass;
        let mut closed = table.close_with(seat);
        let value = closed.take(0);
        closed.free();
        match value {
            Some(value) => value,
            None => unreachable!(),
        }
    }

    // The join itself tells nothing, so one more load shows how the two lists and the places fit.
    fn join_seats(
        &self,
        seat: &mut Seat<Option<T>, View<T::Entry>>,
        other: Seat<Option<T>, View<T::Entry>>,
    )
        requires of { (seat.old.table_id ≡ self.now.table.shared.table_id) × (other.table_id ≡ self.now.table.shared.table_id) }
        requires idle { (seat.old.me.0.stage ≡ Idle) × (other.me.0.stage ≡ Idle) }
        requires parts { 0 < seat.old.me.0.parts }
        requires slots { seat.old.me.1 ≡ [] }
        requires other_slots { other.me.1 ≡ [] }
        ensures same { IsOneSeat seat.old seat.new }
        ensures view { seat.new.me ≡ (with_stage (both_views seat.old.me.0 other.me.0) Idle, []) }
        ensures prefixes { IsPrefix seat.old.me.0.seen seat.new.me.0.seen × IsPrefix other.me.0.seen seat.new.me.0.seen }
        ensures places { Ascends 0 (length seat.new.me.0.seen) seat.new.me.0.own }
    {
        self.table.shared.join_seat::<Parts>(seat, other);
        self.table.shared.load::<Compare>(seat, 0);
    }

    // Draws the next ticket. Past the greatest one it waits forever.
    fn draw<R: Wait>(&self, rt: &R, seat: &mut Seat<Option<T>, View<T::Entry>>) -> u64
        requires of { seat.old.table_id ≡ self.now.table.shared.table_id }
        requires idle { seat.old.me.0.stage ≡ Idle }
        requires parts { 0 < seat.old.me.0.parts }
        requires slots { seat.old.me.1 ≡ [] }
        ensures same { IsOneSeat seat.old seat.new }
        ensures view { seat.new.me ≡ (with_stage seat.old.me.0 (Waits result), []) }
    {
        for _ in rt.forever() {
            let next = self.table.shared.peek(0);
            if next < u64::MAX {
                let found = self
                    .table
                    .shared
                    .compare_exchange::<Draw>(seat, 0, next, next + 1);
                if found == next {
                    return next;
                }
            }
            thread::yield_now();
        }
        unreachable!()
    }

    // Waits until the ticket is next, and takes the value out.
    fn take<R: Wait>(&self, rt: &R, seat: &mut Seat<Option<T>, View<T::Entry>>, ticket: u64) -> T
        requires of { seat.old.table_id ≡ self.now.table.shared.table_id }
        requires waits { seat.old.me.0.stage ≡ Waits ticket }
        requires parts { 0 < seat.old.me.0.parts }
        requires slots { seat.old.me.1 ≡ [] }
        ensures same { IsOneSeat seat.old seat.new }
        ensures view { seat.new.me ≡ (with_stage seat.old.me.0 (Turns ticket (T.list result)), (0, None) ∷ []) }
        ensures begins { IsPrefix seat.old.me.0.seen (T.list result) }
    {
        let bell = self.bell(ticket);
        for _ in rt.forever() {
            // The bell is looked at first, so that one which rings after the look is not slept through.
            let rung = bell.load(Ordering::SeqCst);
            let served = self.table.shared.load::<Look>(seat, 1);
            if served == ticket {
                match self.table.shared.exchange(seat, 0, None) {
                    Some(value) => return value,
                    None => unreachable!(),
                }
            }
            let low = rung % (1 << 32);
            bell.park(rt, low as u32);
        }
        unreachable!()
    }

    // Puts the value back into the slot, and lets the next ticket have it.
    fn give_back(&self, seat: &mut Seat<Option<T>, View<T::Entry>>, value: T)
        requires of { seat.old.table_id ≡ self.now.table.shared.table_id }
        requires turning { IsInTurn seat.old.me.0.stage }
        requires parts { 0 < seat.old.me.0.parts }
        requires slots { seat.old.me.1 ≡ (0, None) ∷ [] }
        requires adds { AddsAtMostOne (noted_at seat.old.me.0.stage) (T.list value) }
        ensures same { IsOneSeat seat.old seat.new }
        ensures view { seat.new.me ≡ (after_turn seat.old.me.0 (noted_at seat.old.me.0.stage) (T.list value), []) }
    {
        match self.table.shared.exchange(seat, 0, Some(value)) {
            None => {}
            Some(_) => unreachable!(),
        }
        let finished = self.table.shared.fetch_add::<Finish>(seat, 1, 1);
        self.wake(finished.wrapping_add(1));
    }

    // Wakes the pass that waits with this ticket. One that draws it later finds its turn come, and doesn't sleep.
    fn wake(&self, ticket: u64) {
        if ticket < self.table.shared.peek(0) {
            let bell = self.bell(ticket);
            bell.fetch_add(1, Ordering::SeqCst);
            bell.wake_all();
        }
    }

    // The bell that rings when this ticket is next.
    fn bell(&self, ticket: u64) -> &AtomicU64 {
        &self.bells[(ticket % BELLS as u64) as usize]
    }
}
