//! What a value behind a lock says of itself.

/// A value that stands for a list of entries of the type `E`. Its origin, of the type `O`, is whatever no call on it changes.
pub trait Stands<E, O> {
    ghost use Rattle.std.specs.Prelude.{List};

    ghost stands: { Self → List E → Type 0 };

    ghost origin: { Self → O };
}

/// What a call says of the origin of the value, its request, its reply, the entries before it and the entries that it adds.
pub trait Says<E, O, Q, A> {
    ghost use Rattle.std.specs.Prelude.{List};

    ghost says: { O → Q → A → List E → List E → Type 0 };
}
