//! Evaluations are counted.

ghost use Rattle.std.specs.Prelude.{◌≡◌, suc, ◌<◌};

use std::marker::Model;
use std::sync::ledger::{Blank, Book, Ledger, Share};

/// How many evaluations there were. It takes no bytes, and only `evaluate` adds to it. Contracts see the number.
#[derive(Drop)]
pub struct Steps<L: Ledger> {
    book: Book<L>,
    share: Share<L>,
}

impl<L: Ledger> Model for Steps<L> {
    ghost use Rattle.std.specs.Prelude.{ℕ, ◌<◌};

    ghost Value = { ℕ };

    ghost view = { λ steps. steps.book.total };

    ghost invariant = { λ steps. 0 < steps.share.parts };
}

impl<L: Ledger> Steps<L> {
    /// No evaluation so far, in a ledger that nobody else counts in.
    pub fn new(blank: Blank) -> Steps<L>
        requires name { blank.name ≡ L.name }
        requires parts { blank.parts ≡ L.parts }
        requires some { 0 < blank.parts }
        ensures none { result ≡ 0 }
    {
        let (book, share) = blank.open::<L>();
        Steps { book, share }
    }

    /// One more evaluation.
    pub(crate) fn tick(&mut self)
        ensures one_more { self.new ≡ suc self.old }
    {
        self.book.add(&mut self.share, 1);
    }
}
