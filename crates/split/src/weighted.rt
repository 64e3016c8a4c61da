// What an amount is split over.
ghost use Rattle.std.specs.Prelude.{◌≡◌, ℕ};

/// Something that takes part in a split by its weight.
pub trait Weighted {
    /// The weight by which it takes part.
    ghost weighs: { Self → ℕ };

    /// Its weight.
    fn weight(&self) -> u64
        ensures { result ≡ weighs self.now };
}
