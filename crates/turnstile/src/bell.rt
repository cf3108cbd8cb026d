//! Where callers sleep until their turn has come. Nothing here carries a proof: a bell decides when a
//! caller looks again, and never what it may do.
//!
//! A bell counts its rings. A caller reads the count, looks whether its turn has come, and if it hasn't,
//! sleeps for as long as the count is the one that it read. Who passes the turn on does so first and rings
//! afterwards. So a turn that comes after the look is followed by a ring, and the count has changed, or
//! changes while the caller sleeps.
//!
//! A caller counts itself among the sleepers before the count of rings is compared, and who rings counts
//! the ring before it reads the number of sleepers. Each step is sequentially consistent. So either the
//! ringing thread sees the sleeper and wakes it, or the sleeper's comparison sees the ring and doesn't
//! sleep. No wake-up is lost.
//!
//! The comparison sees the low 32 bits of the count. That is enough: between a caller's reading and its
//! sleep each other thread rings at most once, since its next turn comes after the caller's own.

use std::hint;
use std::sync::Wait;
use std::sync::atomic::{AtomicU64, Ordering};

// How many bells there are. Callers whose tickets lie this far apart share one, and wake together.
const BELLS: usize = 16;

// How often a caller looks again at once before it sleeps.
const LOOKS: u32 = 64;

/// A count of rings, and the number of callers that sleep until it changes.
#[derive(Drop)]
pub struct Bell {
    rings: AtomicU64,
    sleepers: AtomicU64,
}

impl Bell {
    fn new() -> Bell {
        Bell {
            rings: AtomicU64::new(0),
            sleepers: AtomicU64::new(0),
        }
    }

    /// How often it was rung.
    pub fn rings(&self) -> u64 {
        self.rings.load(Ordering::SeqCst)
    }

    /// Rests before the next look, for a moment after the first looks and asleep after later ones. It takes
    /// the number of looks so far, and answers that number with the next one.
    pub fn rest<R: Wait>(&self, rt: &R, rings: u64, looks: u32) -> u32 {
        if looks < LOOKS {
            hint::spin_loop();
        } else {
            self.sleep(rt, rings);
        }
        looks.saturating_add(1)
    }

    // Sleeps unless it was rung since `rings` was read. It may return for no reason.
    fn sleep<R: Wait>(&self, rt: &R, rings: u64) {
        self.sleepers.fetch_add(1, Ordering::SeqCst);
        self.rings.park(rt, (rings & 0xffff_ffff) as u32);
        self.sleepers.fetch_sub(1, Ordering::SeqCst);
    }

    /// Wakes all that sleep here.
    pub fn ring(&self) {
        self.rings.fetch_add(1, Ordering::SeqCst);
        if self.sleepers.load(Ordering::SeqCst) != 0 {
            self.rings.wake_all();
        }
    }
}

/// The bells of a turnstile. A ticket has one of them, so that a ring seldom wakes more than one caller.
#[derive(Drop)]
pub struct Bells {
    bells: [Bell; BELLS],
}

impl Bells {
    /// Bells that nobody has rung.
    pub fn new() -> Bells {
        Bells {
            bells: std::array::from_fn(|_| Bell::new()),
        }
    }

    /// The bell of a ticket.
    pub fn of(&self, ticket: u64) -> &Bell {
        &self.bells[(ticket % BELLS as u64) as usize]
    }
}
