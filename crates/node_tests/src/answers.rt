//! What a keeper in memory answers, and what commands wait for at the gates.

use crate::checks::equal;
use node::{FreeGate, Gate, Keeper, KeeperFault, MemoryKeeper, OutOfTurns, PacedGate};

#[test]
fn keepers_and_gates_answer_by_themselves(rt: HostRuntime) {
    let mut keeper = MemoryKeeper::new(rt.alloc(), 0);
    for &answer in &[Ok(1), Ok(2)] {
        equal(&rt, "the next", &keeper.raise(), &answer);
    }
    let mut keeper = MemoryKeeper::new(rt.alloc(), 4_294_967_294);
    let spent = Err(KeeperFault::Spent);
    for &answer in &[Ok(4_294_967_295), spent, spent] {
        equal(&rt, "the last", &keeper.raise(), &answer);
    }
    let gate = FreeGate;
    let free = (gate.issue(7), gate.pass(0, 7), gate.sent(0, 7));
    equal(&rt, "no command waits", &free, &(Ok(()), Ok(()), Ok(())));
    let gate = PacedGate::new(3);
    let early = (gate.issue(1), gate.issue(2));
    equal(&rt, "the second, early", &early, &(Ok(()), Err(OutOfTurns)));
    let done = (gate.pass(0, 1), gate.sent(0, 1));
    equal(&rt, "the first is done", &done, &(Ok(()), Ok(())));
    let next = (gate.issue(2), gate.issue(3));
    equal(&rt, "the third, early", &next, &(Ok(()), Err(OutOfTurns)));
}
