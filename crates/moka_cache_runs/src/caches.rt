//! Caches of the tests.
ghost use Rattle.std.specs.Prelude.{ℕ};

use moka_cache::{Cache, Listener, NoListener};

/// A cache of numbers, with this listener.
pub type Heard<L> = Cache<u32, u32, u32, L>;

/// A cache of numbers without a listener.
pub type Numbers = Heard<NoListener>;

/// A listener of such a cache, which hears whatever leaves.
pub trait HearsAny: Listener<u32, u32> {
    /// It may be started with any key and value.
    ghost hears_any: { (listener : Self) (key : ℕ) (value : ℕ)
        → Self.Listener.hears listener key value };
}

impl HearsAny for NoListener {
    ghost hears_any = { λ listener key value. tt };
}
