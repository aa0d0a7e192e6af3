//! The trait of the values that a context table stores for its threads: each value has a number, its tag.
ghost use Rattle.std.specs.Prelude.{◌≡◌, ℕ};

/// A value with a tag, the number of its thread in a table of threads.
pub trait Tagged {
    ghost tag_of: { Self → ℕ };

    fn tag(&self) -> u64
        ensures { result ≡ tag_of self.now };
}
