//! A vector that contracts see as a list.

ghost use Rattle.std.specs.Prelude.{◌≡◌};

use std::marker::Model;

/// One vector, which contracts see as its list.
#[derive(Clone, Debug, Drop)]
pub struct Items<T> {
    vector: Vec<T>,
}

impl<T> Model for Items<T> {
    ghost use Rattle.std.specs.Prelude.{List};

    ghost Value = { List T };

    ghost view = { λ items. items.vector.items };
}

impl<T> Items<T> {
    /// The elements of a vector, in its order.
    pub fn of(vector: Vec<T>) -> Items<T>
        ensures same { result ≡ vector.items }
    {
        Items { vector }
    }

    /// The elements, in order.
    pub fn as_slice(&self) -> &[T]
        ensures same { result.now ≡ self.now }
    {
        self.vector.as_slice()
    }

    /// The vector with the elements, in order.
    pub fn into_vec(self) -> Vec<T>
        ensures same { result.items ≡ self }
    {
        let Items { vector } = self;
        vector
    }
}
