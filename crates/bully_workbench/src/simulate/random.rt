ghost use Rattle.std.specs.Prelude.{◌<◌, IfSome};

/// Pseudo-random numbers: Marsaglia's xorshift with 64 bits.
#[derive(Drop)]
pub struct Random(pub u64);

impl Random {
    /// The next number.
    pub fn next(&mut self) -> u64 {
        self.0 ^= self.0 << 13;
        self.0 ^= self.0 >> 7;
        self.0 ^= self.0 << 17;
        self.0
    }

    /// A number below this one; none below 0.
    pub fn below(&mut self, count: usize) -> Option<usize>
        ensures { IfSome result (λ number. number < count) }
    {
        usize::try_from(self.next()).ok()?.checked_rem(count)
    }
}
