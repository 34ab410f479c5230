// Sets of row or column numbers, each in one word.
ghost use Rattle.std.specs.Prelude.{◌≡◌, ℕ, ◌≤◌, ◌<◌, ◌%◌, true};
ghost use Rattle.std.specs.Int.{bit_at};
ghost use Rattle.std.specs.Int.RustNames.{bit_or};
ghost use Rattle.nf_linear.specs.Marks.{IsFree, IsSubset};

use std::marker::Model;

// A set of numbers. Numbers that are equal modulo 64 are all in the set, or none of them is.
#[derive(Clone, Copy)]
pub struct Marks {
    word: u64,
}

impl Model for Marks {
    ghost use Rattle.std.specs.Prelude.{ℕ};

    ghost Value = { ℕ };

    ghost view = { λ m. m.word };

    ghost inverse = { λ word. record { word = word } };
}

impl Marks {
    // Returns the empty set.
    pub fn none() -> Marks {
        Marks { word: 0 }
    }

    // Puts a number into the set.
    pub fn put(&mut self, number: usize)
        ensures put { bit_at self.new (number % 64) ≡ 1 }
        ensures kept { IsSubset self.old self.new }
    {
        self.word |= 1 << (number % 64);
    }

    // Puts a number into the set if `holds`.
    pub fn put_if(&mut self, number: usize, holds: bool)
        ensures put { holds ≡ true → bit_at self.new (number % 64) ≡ 1 }
        ensures kept { IsSubset self.old self.new }
    {
        if holds {
            self.put(number);
        }
    }

    // Puts all numbers of another set into the set.
    pub fn join(&mut self, other: Marks)
        ensures { self.new ≡ bit_or self.old other }
    {
        self.word |= other.word;
    }

    // Returns the first number of the set from `from` on, or `end` if that is less.
    pub fn next(&self, from: usize, end: usize) -> usize
        requires { from ≤ end }
        ensures later { (from ≤ result) × (result ≤ end) }
        ensures free { (i : ℕ) → from ≤ i → i < result → IsFree self.now i }
    {
        let ahead = self.word.rotate_right((from % 64) as u32);
        let step = ahead.trailing_zeros() as usize;
        from + step.min(end - from)
    }
}
