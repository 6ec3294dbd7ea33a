//! The arguments of a traced program.

ghost use Rattle.std.specs.Prelude.{◌≡◌, ◌↔◌, IsTrue, [], length};

use mv_base::Bytes;
use std::marker::Model;

/// Arguments in their order, each without its ending zero.
#[derive(Drop)]
pub struct Args {
    items: Vec<Bytes>,
}

impl Model for Args {
    ghost use Rattle.std.specs.Prelude.{ℕ, List};

    ghost Value = { List (List ℕ) };

    ghost view = { λ a. a.items.items };
}

impl Args {
    /// The arguments of a vector.
    pub fn new(items: Vec<Bytes>) -> Args
        ensures { result ≡ items.items }
    {
        Args { items }
    }

    /// The vector of the arguments.
    pub fn into_vec(self) -> Vec<Bytes>
        ensures { result.items ≡ self }
    {
        self.items
    }

    /// The arguments as a slice.
    pub fn as_slice(&self) -> &[Bytes]
        ensures { result.now ≡ self.now }
    {
        self.items.as_slice()
    }

    /// How many arguments there are.
    pub fn len(&self) -> usize
        ensures { result ≡ length self.now }
    {
        self.items.len()
    }

    /// Whether there is no argument.
    pub fn is_empty(&self) -> bool
        ensures { IsTrue result ↔ (self.now ≡ []) }
    {
        self.items.is_empty()
    }
}
