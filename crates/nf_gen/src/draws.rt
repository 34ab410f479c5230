// The linear congruential generator.
ghost use Rattle.std.specs.Prelude.{◌≡◌, ◌%◌, ◌<◌};
ghost use Rattle.nf_gen.specs.Ladder.{next_value};

use std::marker::Model;

/// The modulus. Each value of the generator is less than it.
const MODULUS: u64 = 65_537;

/// A linear congruential generator. Each draw replaces its value by the next one.
#[derive(Drop)]
pub struct Draws {
    value: u64,
}

impl Model for Draws {
    ghost use Rattle.std.specs.Prelude.{ℕ, ◌<◌};

    ghost Value = { ℕ };

    ghost view = { λ d. d.value };

    ghost invariant = { λ d. d.value < 65537 };
}

impl Draws {
    /// Returns the generator that starts from this number.
    pub fn new(number: u64) -> Draws
        ensures { result ≡ number % 65537 }
    {
        Draws {
            value: number % MODULUS,
        }
    }

    /// Advances to the next value, and returns its remainder modulo `divisor`, which must be positive.
    #[tactic(auto, unfolding(crate::specs::Ladder::next_value))]
    pub fn draw(&mut self, divisor: u64) -> u64
        requires { 0 < divisor }
        ensures value { self.new ≡ next_value self.old }
        ensures drawn { result ≡ next_value self.old % divisor }
    {
        self.value = (75 * self.value + 74) % MODULUS;
        self.value % divisor
    }
}
