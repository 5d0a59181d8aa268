//! Changes of values.
ghost use Rattle.std.specs.Prelude.{◌≡◌};

/// A change of a value, which is made where the value is, so that a large one is not copied.
pub trait Change<T> {
    /// What a value becomes.
    ghost changed: { Self → T → T };

    fn change(&self, value: &mut T)
        ensures { value.new ≡ changed self.now value.old };
}
