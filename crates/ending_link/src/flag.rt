//! A flag that threads share.

ghost use Rattle.std.specs.Prelude.{Bool};

use std::sync::atomic::{AtomicBool, Ordering};

/// A flag that one thread raises, and others look at. It is never lowered.
pub trait Flag {
    /// That the flag was raised: what raising it leaves behind. Nothing else gives it.
    ghost raised: { Self → Type 0 };

    /// That a look at the flag found it so, raised or lowered: what a look leaves behind. Nothing else gives it.
    ghost seen: { Self → Bool → Type 0 };

    /// Raises the flag.
    fn raise(&self)
        ensures raised { raised self.now };

    /// Whether the flag is raised.
    fn is_raised(&self) -> bool
        ensures seen { seen self.now result };
}

/// A flag in memory that threads share.
#[derive(Drop)]
pub struct SharedFlag {
    up: AtomicBool,
}

impl SharedFlag {
    /// A flag that nobody has raised.
    pub fn new() -> SharedFlag {
        SharedFlag {
            up: AtomicBool::new(false),
        }
    }
}

impl Flag for SharedFlag {
    ghost raised = { λ flag. Unit {0} };

    ghost seen = { λ flag up. Unit {0} };

    fn raise(&self) {
        self.up.store(true, Ordering::SeqCst);
    }

    fn is_raised(&self) -> bool {
        self.up.load(Ordering::SeqCst)
    }
}

// A flag that is lent is the flag.
impl<F: Flag> Flag for &F {
    ghost raised = { λ flag. F.raised flag.now };

    ghost seen = { λ flag up. F.seen flag.now up };

    fn raise(&self) {
        (**self).raise()
    }

    fn is_raised(&self) -> bool {
        (**self).is_raised()
    }
}
