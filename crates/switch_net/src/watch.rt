//! What the pipes of a phase know of each other.

use std::sync::atomic::{AtomicUsize, Ordering};

// More than there are pipes.
const PIPES: usize = 64;

/// What pipes that run beside each other know of each other, so that none waits for another that
/// waits too. It is a hint about when to end a phase: what a pipe does doesn't rest on it.
#[derive(Drop)]
pub(crate) struct Watch {
    // how many turns in which a pipe did something have ended, and one more
    moves: AtomicUsize,
    // that number at some moment, and how many pipes have taken a turn since then in vain
    vain: AtomicUsize,
    // how many pipes have turns left
    left: AtomicUsize,
}

impl Watch {
    /// Of so many pipes before their first turn.
    pub(crate) fn new(pipes: usize) -> Watch {
        Watch {
            moves: AtomicUsize::new(1),
            vain: AtomicUsize::new(0),
            left: AtomicUsize::new(pipes),
        }
    }

    /// The moment of the last turn in which a pipe did something.
    pub(crate) fn moment(&self) -> usize {
        self.moves.load(Ordering::SeqCst)
    }

    /// A pipe did something in a turn.
    pub(crate) fn moved(&self) {
        let _ = self.moves.fetch_add(1, Ordering::SeqCst);
    }

    /// A pipe did nothing in a turn that began after a moment. Tells whether this was the last
    /// moment, and is counted.
    pub(crate) fn was_vain(&self, moment: usize) -> bool {
        let vain = self.vain.load(Ordering::SeqCst);
        let first = moment.wrapping_mul(PIPES);
        let before = if vain / PIPES == moment { vain } else { first };
        self.moment() == moment
            && self
                .vain
                .compare_exchange(
                    vain,
                    before.wrapping_add(1),
                    Ordering::SeqCst,
                    Ordering::SeqCst,
                )
                .is_ok()
    }

    /// Whether each pipe that has turns left has taken one in vain since the last moment.
    pub(crate) fn is_still(&self) -> bool {
        let vain = self.vain.load(Ordering::SeqCst);
        vain / PIPES == self.moment() && vain % PIPES >= self.left.load(Ordering::SeqCst)
    }

    /// A pipe has no turns left.
    pub(crate) fn leave(&self) {
        let _ = self.left.fetch_sub(1, Ordering::SeqCst);
    }
}
