//! A gate at which two workers meet.

use routing_stages::Gate;
use std::hint::spin_loop;
use std::sync::atomic::{AtomicU64, Ordering};

/// How often a worker looks whether the other one is as far as it has to be.
const LOOKS: u64 = 1 << 28;

/// Worker 0 waits in this turn until worker 1 begins its own, and worker 1 waits in its first turn until worker 0 begins this
/// one.
#[derive(Drop)]
pub struct Meeting {
    turn: u64,
    first: AtomicU64,
    second: AtomicU64,
    late: AtomicU64,
}

impl Gate for Meeting {
    fn pass(&self, worker: u32, turn: u64) {
        if worker == 0 && turn == self.turn {
            self.first.store(1, Ordering::SeqCst);
            self.wait_for(&self.second);
        }
        if worker == 1 && turn == self.turn {
            self.second.store(1, Ordering::SeqCst);
        }
        if worker == 1 && turn == 0 {
            self.wait_for(&self.first);
        }
    }
}

impl Meeting {
    pub fn in_turn(turn: u64) -> Meeting {
        Meeting {
            turn,
            first: AtomicU64::new(0),
            second: AtomicU64::new(0),
            late: AtomicU64::new(0),
        }
    }

    /// Whether both workers came, and neither was late.
    pub fn was_held(&self) -> bool {
        self.first.load(Ordering::SeqCst) == 1
            && self.second.load(Ordering::SeqCst) == 1
            && self.late.load(Ordering::SeqCst) == 0
    }

    /// Returns when the other worker is there, or is late.
    fn wait_for(&self, other: &AtomicU64) {
        for _ in 0..LOOKS {
            if other.load(Ordering::SeqCst) > 0 {
                return;
            }
            spin_loop();
        }
        self.late.store(1, Ordering::SeqCst);
    }
}
