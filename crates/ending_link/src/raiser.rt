//! How a ground raises its flag.

ghost use Rattle.std.specs.Prelude.{◌≡◌};
ghost use Rattle.ground_io.specs.Counts.{next_count};

use crate::Flag;
use std::marker::Model;

/// The one way in which a ground raises its flag. It counts how often.
#[derive(Drop)]
pub(crate) struct Raiser<F: Flag> {
    flag: F,
    raised: u64,
}

impl<F: Flag> Model for Raiser<F> {
    ghost use Rattle.ending_link.specs.Ending.{RaiserState};

    ghost Value = { RaiserState F };

    ghost view = { λ raiser. record { flag = raiser.flag; raised = raiser.raised } };
}

impl<F: Flag> Raiser<F> {
    /// It hasn't raised the flag.
    pub(crate) fn new(flag: F) -> Raiser<F>
        ensures made { result ≡ record { flag = flag; raised = 0 } }
    {
        Raiser { flag, raised: 0 }
    }

    /// Raises the flag.
    pub(crate) fn raise(&mut self)
        ensures raised { F.raised self.new.flag }
        ensures counted { self.new ≡ record self.old { raised = next_count self.old.raised } }
    {
        self.raised = self.raised.saturating_add(1);
        self.flag.raise();
    }
}
