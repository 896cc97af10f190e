//! Callers of the lock: the row of one entry by the pass that was split off, and two threads that take turns.
ghost use Rattle.std.specs.Prelude.{◌≡◌, ◌+◌, ◌≤◌, ◌<◌, [], ◌∷◌, ◌++◌, IsTrue, IfSome};
ghost use Rattle.turn_lock.specs.Lists.{IsPrefix};
ghost use Rattle.turn_lock.specs.Places.{new_places};
ghost use Rattle.turn_lock.specs.Pass.{seen, own, parts, IsIdle};
ghost use Rattle.turn_lock.specs.TurnLock.{IsPassOf};
ghost use Rattle.turn_lock.specs.Turns.{Adds};

use std::alloc::Global;
use std::snapshot::Snapshot;
use std::sync::Wait;
use std::test::*;
use std::thread;
use std::thread::Threads;
use turn_lock::{Kept, Pass, TurnLock};

// How many turns each of two threads takes.
const TURNS: u32 = 50_000;

// A turn in which the entry is added, or for want of memory none.
fn add<E: Copy, R: Wait>(rt: &R, lock: &TurnLock<Vec<E>>, pass: &mut Pass<Vec<E>>, entry: E) -> bool
    requires of { IsPassOf lock.now pass.old }
    requires idle { IsIdle pass.old }
    ensures of { IsPassOf lock.now pass.new }
    ensures idle { IsIdle pass.new }
    ensures parts { parts pass.new ≡ parts pass.old }
    ensures added { IsTrue result → Adds entry (seen pass.old) (own pass.old) (seen pass.new) (own pass.new) }
{
    let mut turn = lock.turn(rt, pass);
    let added = turn.value.push(entry).is_ok();
    lock.finish(pass, turn);
    added
}

// The second pass adds an entry, and is joined into the first. What the first then knows is given back beside the list.
fn one_entry<R: Wait>(rt: &R, alloc: Global) -> Option<(Vec<u8>, Snapshot<Pass<Vec<u8>>>)>
    ensures list { IfSome result (λ r. r.0.items ≡ 7 ∷ []) }
    ensures seen { IfSome result (λ r. seen r.1.value ≡ 7 ∷ []) }
    ensures own { IfSome result (λ r. own r.1.value ≡ 0 ∷ []) }
{
    let Ok((lock, mut first)) = TurnLock::make(alloc, Vec::new(alloc)) else {
        return None;
    };
    let mut second = lock.split(&mut first);
    let added = add(rt, &lock, &mut second, 7);
    lock.join(&mut first, second);
    let knows = Snapshot::of(&first);
    let list = lock.close(first);
    if added { Some((list, knows)) } else { None }
}

#[test]
fn one_entry_by_the_second_pass(rt: HostRuntime) -> Result<(), Fail> {
    let (list, _knows) = one_entry(&rt, rt.alloc()).ok_or("there is memory")?;
    assert_eq!(rt; list.count(), 1);
    assert!(rt; list.as_slice() == [7].as_slice());
    Ok(())
}

// In each turn the thread adds the next of its numbers, the even ones or the odd ones.
fn add_each<R: Wait>(
    rt: &R,
    lock: &TurnLock<Vec<u32>>,
    mut pass: Pass<Vec<u32>>,
    odd: bool,
) -> (bool, Pass<Vec<u32>>)
    requires of { IsPassOf lock.now pass }
    requires idle { IsIdle pass }
    ensures of { IsPassOf lock.now result.1 }
    ensures idle { IsIdle result.1 }
    ensures parts { parts result.1 ≡ parts pass }
{
    let mut all = true;
    for turn in 0..TURNS {
        all &= add(rt, lock, &mut pass, 2 * turn + odd as u32);
    }
    (all, pass)
}

fn entries_of_two_threads<R: Threads + Wait + Sync>(rt: &R, alloc: Global) -> Option<Vec<u32>> {
    let Ok((lock, mut first)) = TurnLock::make(alloc, Vec::new(alloc)) else {
        return None;
    };
    let second = lock.split(&mut first);
    let shared = &lock;
    let ((even, mut first), (odd, second)) = thread::join(
        rt,
        move || -> (bool, Pass<Vec<u32>>)
            requires { IsPassOf shared.now first × IsIdle first }
            ensures { IsPassOf shared.entry.now result.1 × IsIdle result.1 × (parts result.1 ≡ parts first) }
        { add_each(rt, shared, first, false) },
        move || -> (bool, Pass<Vec<u32>>)
            requires { IsPassOf shared.now second × IsIdle second }
            ensures { IsPassOf shared.entry.now result.1 × IsIdle result.1 × (parts result.1 ≡ parts second) }
        { add_each(rt, shared, second, true) },
    );
    lock.join(&mut first, second);
    let list = lock.close(first);
    if even && odd { Some(list) } else { None }
}

#[test]
fn every_entry_of_two_threads_stands_there_once(rt: HostRuntime) -> Result<(), Fail> {
    let list = entries_of_two_threads(&rt, rt.alloc()).ok_or("there is memory")?;
    assert_eq!(rt; list.count(), 2 * TURNS as u64);
    let mut next = [0, 1];
    for number in list.iter() {
        let thread = (*number % 2) as usize;
        assert_eq!(rt; *number, next[thread]);
        next[thread] = next[thread].wrapping_add(2);
    }
    assert!(rt; next == [2 * TURNS, 2 * TURNS + 1]);
    Ok(())
}
