use super::*;
use std::test::Fail;
use std::thread;
use std::thread::Threads;

/// Two calls of a worker between gates.
fn two_calls<G: Gate>(gate: &G, worker: usize) {
    for turn in 0..4 {
        gate.pass(worker, turn);
    }
}

fn two_workers<G: Gate, R: Threads>(rt: &R, gate: &G) {
    thread::join(rt, || two_calls(gate, 0), || two_calls(gate, 1));
}

#[test]
fn the_open_gate_lets_two_workers_pass(rt: HostRuntime) -> Result<(), Fail> {
    two_workers(&rt, &OpenGate);
    Ok(())
}

#[test]
fn two_workers_meet_after_their_first_calls(rt: HostRuntime) -> Result<(), Fail> {
    let gate = TwoMeet::new();
    assert!(rt; !gate.met());
    two_workers(&rt, &gate);
    assert!(rt; gate.met());
    Ok(())
}

#[test]
fn other_workers_and_turns_pass_at_once(rt: HostRuntime) -> Result<(), Fail> {
    let gate = TwoMeet::new();
    for turn in [0u64, 2, 3, u64::MAX] {
        gate.pass(0, turn);
        gate.pass(1, turn);
    }
    for worker in [2usize, 31, usize::MAX] {
        gate.pass(worker, 1);
    }
    assert!(rt; !gate.met());
    Ok(())
}
