// Which of the callbacks in flight makes the next act.
ghost use Rattle.std.specs.Prelude.{◌≡◌, ◌<◌, ◌-◌, ◌%◌, ℕ, List, [], drop};
ghost use Rattle.rand_pcg.specs.Lcg.{started, increment_of};
ghost use Rattle.rand_pcg.specs.Pcg.{multiplier_64};
ghost use Rattle.edge_io.specs.Turns.{first_of};

use rand_core::utils::NextWord;
use rand_pcg::Pcg32;
use std::marker::Model;

/// Picks which of several callbacks in flight makes the next act, by its place in their order.
pub trait Turns {
    /// What it picks next of so many.
    ghost picked: { Self → ℕ → ℕ };

    /// A place below the count, which is above 0.
    fn pick(&mut self, count: u32) -> u32
        requires { 0 < count }
        ensures below { result < count }
        ensures picked { result ≡ picked self.old count };
}

/// Always the first, so the callbacks end in the order in which they began.
#[derive(Clone, Copy, Debug)]
pub struct First;

impl Turns for First {
    ghost picked = { λ _ count. 0 };

    fn pick(&mut self, _count: u32) -> u32 {
        0
    }
}

/// Always the last, so the newest callback runs to its end before the older ones.
#[derive(Clone, Copy, Debug)]
pub struct Last;

impl Turns for Last {
    ghost use Rattle.std.specs.Prelude.{◌-◌};

    ghost picked = { λ _ count. count - 1 };

    fn pick(&mut self, count: u32) -> u32 {
        count - 1
    }
}

/// The numbers of a list, one after another, each modulo the count; the first once they are used up. Contracts see those
/// that aren't used yet.
#[derive(Drop)]
pub struct Listed {
    numbers: Vec<u32>,
    used: usize,
}

impl Model for Listed {
    ghost use Rattle.std.specs.Prelude.{List, ℕ, drop};

    ghost Value = { List ℕ };

    ghost view = { λ l. drop l.used l.numbers.items };
}

impl Listed {
    pub fn new(numbers: Vec<u32>) -> Listed
        ensures { result ≡ numbers.items }
    {
        Listed { numbers, used: 0 }
    }

    /// The next number, and 0 once they are used up.
    pub fn next(&mut self) -> u32
        ensures number { result ≡ first_of self.old }
        ensures rest { self.new ≡ drop 1 self.old }
    {
        if self.used < self.numbers.len() {
            let number = self.numbers[self.used];
            self.used += 1;
            return number;
        }
        0
    }
}

impl Turns for Listed {
    ghost use Rattle.std.specs.Prelude.{◌%◌};
    ghost use Rattle.edge_io.specs.Turns.{first_of};

    ghost picked = { λ l count. first_of l % count };

    fn pick(&mut self, count: u32) -> u32 {
        self.next() % count
    }
}

/// Draws by a generator that a number starts, each word modulo the count: the same number gives the same turns.
#[derive(Debug, Drop)]
pub struct Seeded {
    words: Pcg32,
}

impl Seeded {
    /// The stream of the generator is 0.
    pub fn new(seed: u64) -> Seeded
        ensures { result.words ≡ started 64 multiplier_64 seed (increment_of 64 0) }
    {
        Seeded {
            words: Pcg32::new(seed, 0),
        }
    }
}

impl Turns for Seeded {
    ghost use Rattle.std.specs.Prelude.{◌%◌};
    ghost use Rattle.rand_pcg.specs.Pcg.{pcg32};

    ghost picked = { λ s count. (pcg32 s.words).0 % count };

    fn pick(&mut self, count: u32) -> u32 {
        self.words.next_word() % count
    }
}
