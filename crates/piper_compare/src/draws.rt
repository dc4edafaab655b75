//! What a handle draws next.

use rand_core::SeedableRng;
use rand_core::utils::NextWord;
use rand_pcg::Pcg32;

/// A generator that goes on as the one of a handle, and the number below 100 that comes next.
#[derive(Drop)]
pub struct Draws {
    rng: Pcg32,
    next: u32,
}

impl Draws {
    /// The draws of a generator that begins at this seed.
    pub fn new(seed: u64) -> Draws {
        let mut rng = Pcg32::seed_from_u64(seed);
        let next = draw(&mut rng);
        Draws { rng, next }
    }

    /// The number that is drawn next.
    pub fn next(&self) -> u32 {
        self.next
    }

    /// It was drawn.
    pub fn pass(&mut self) {
        self.next = draw(&mut self.rng);
    }
}

fn draw(rng: &mut Pcg32) -> u32 {
    rng.next_word() % 100
}
