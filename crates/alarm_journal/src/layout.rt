//! Where on its device a journal stands.

ghost use Rattle.std.specs.Prelude.{◌≡◌, ◌+◌, ◌<◌, ◌≤◌, ◌^◌};
ghost use Rattle.alarm_journal.specs.Press.{behind_batch, behind_snapshot, end_of, other_of, room_of, selector_of, start_of};

/// Where a journal's areas lie on its device, which of them is selected, and where the next gate stands.
#[derive(Clone, Copy, Debug)]
pub struct Layout {
    /// Where the first area begins; the second follows it.
    pub areas: u64,
    /// How many octets each area has.
    pub half: u64,
    /// Whether the second area is selected.
    pub second: bool,
    /// The place of the gate of the next batch, or the area's end.
    pub next: u64,
}

impl Layout {
    /// Where the selected area begins.
    pub(crate) fn start(&self) -> u64
        requires { self.now.areas + self.now.half < 2 ^ 64 }
        ensures start { result ≡ start_of self.now }
        ensures low { result ≤ self.now.areas + self.now.half }
    {
        if self.second {
            self.areas + self.half
        } else {
            self.areas
        }
    }

    /// Where the other area begins.
    pub(crate) fn other_start(&self) -> u64
        requires { self.now.areas + self.now.half < 2 ^ 64 }
        ensures start { result ≡ other_of self.now }
    {
        if self.second {
            self.areas
        } else {
            self.areas + self.half
        }
    }

    /// The selector of the other area.
    pub(crate) fn other_selector(&self) -> u8
        ensures selector { result ≡ selector_of self.now }
    {
        if self.second { 0 } else { 1 }
    }

    /// The longest body of a batch that the area still takes.
    pub(crate) fn room(&self) -> u64
        requires fits { self.now.areas + self.now.half + self.now.half < 2 ^ 64 }
        requires within { self.now.next ≤ end_of self.now }
        ensures room { result ≡ room_of self.now }
    {
        (self.start() + self.half - self.next).saturating_sub(6)
    }

    /// The layout with the next gate at a place.
    pub(crate) fn with_next(&self, next: u64) -> Layout
        ensures next { result ≡ record { areas = self.now.areas; half = self.now.half; second = self.now.second; next = next } }
    {
        Layout {
            areas: self.areas,
            half: self.half,
            second: self.second,
            next,
        }
    }

    /// The layout behind a batch whose body has so many octets.
    pub(crate) fn behind_batch(&self, size: u64) -> Layout
        requires { self.now.next + 5 + size < 2 ^ 64 }
        ensures behind { result ≡ behind_batch self.now size }
    {
        Layout {
            areas: self.areas,
            half: self.half,
            second: self.second,
            next: self.next + 5 + size,
        }
    }

    /// The layout with the other area selected, that holds a snapshot of so many octets alone.
    pub(crate) fn behind_snapshot(&self, size: u64) -> Layout
        requires { self.now.areas + self.now.half + size + 4 < 2 ^ 64 }
        ensures behind { result ≡ behind_snapshot self.now size }
    {
        Layout {
            areas: self.areas,
            half: self.half,
            second: !self.second,
            next: self.other_start() + 4 + size,
        }
    }
}
