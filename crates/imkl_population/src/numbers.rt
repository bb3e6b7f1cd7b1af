//! Numbers of objects, counted from 0 in the order in which they were added.

ghost use Rattle.std.specs.Prelude.{◌≡◌, ◌<◌, ◌^◌};

use std::marker::Model;

/// The number of an object in a population, from 0. It takes 4 bytes: a population has at most 1,000,000 objects.
#[derive(Clone, Copy, PartialEq, Eq, PartialOrd, Ord, Debug)]
pub struct ObjectNo {
    index: u32,
}

impl Model for ObjectNo {
    ghost use Rattle.std.specs.Prelude.{ℕ};

    ghost Value = { ℕ };

    ghost view = { λ n. n.index };

    ghost inverse = { λ n. record { index = n } };
}

impl ObjectNo {
    /// The object of this number, which has 32 bits.
    pub fn new(index: usize) -> ObjectNo
        requires { index < 2 ^ 32 }
        ensures { result ≡ index }
    {
        ObjectNo {
            index: index as u32,
        }
    }

    /// The object's number, from 0 in the order in which objects were added.
    pub fn index(self) -> usize
        ensures { result ≡ self }
    {
        self.index as usize
    }
}
