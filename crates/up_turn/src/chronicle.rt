ghost use Rattle.std.specs.Prelude.{◌≡◌, ◌^◌, ◌<◌, List, length};
ghost use Rattle.up_model.specs.declared.entry.Entry.{Entry};

/// A value that stands for a list of entries, to which its calls add. What never changes of it is its origin.
pub trait Chronicle {
    type Origin;

    ghost origin: { Self → Self.Origin };

    ghost list: { Self → List Entry };

    /// How many entries there are. It takes no memory.
    fn count(&self) -> u64
        ensures value { result ≡ length (list self.now) }
        ensures small { result < 2 ^ 63 };
}
