//! A gate that tells whether two jobs are at work at once.

use line_model::Gate;
use std::sync::atomic::{AtomicU64, Ordering};
use std::thread;

/// How often the gate looks before it gives up.
const MOST_LOOKS: u64 = 2_000_000;

/// It holds job 1 until job 3 passes, or gives up.
#[derive(Drop)]
pub struct HoldsTheFirst {
    passed: AtomicU64,
    gave_up: AtomicU64,
}

impl HoldsTheFirst {
    /// No job has come yet.
    pub fn new() -> HoldsTheFirst {
        HoldsTheFirst {
            passed: AtomicU64::new(0),
            gave_up: AtomicU64::new(0),
        }
    }

    /// How often it gave up.
    pub fn gave_up(&self) -> u64 {
        self.gave_up.load(Ordering::SeqCst)
    }
}

impl Gate for HoldsTheFirst {
    fn pass(&self, job: u32) {
        if job == 3 {
            self.passed.fetch_add(1, Ordering::SeqCst);
        }
        if job != 1 {
            return;
        }
        for _ in 0..MOST_LOOKS {
            if self.passed.load(Ordering::SeqCst) > 0 {
                return;
            }
            thread::yield_now();
        }
        self.gave_up.fetch_add(1, Ordering::SeqCst);
    }
}
