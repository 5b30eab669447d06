ghost use Rattle.std.specs.Prelude.{List};

/// What a lane carries.
pub trait Carried: Drop {
    /// What the two ends of a lane agree on. No lane stores it: only contracts see it.
    type Key: Drop;

    /// Whether an item fits the key after these items, which were sent before it.
    ghost fits: { Self.Key → List Self → Self → Type 0 };
}
