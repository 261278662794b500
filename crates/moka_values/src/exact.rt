//! Types whose clones equal their originals.
ghost use Rattle.moka_values.specs.Exactness.{IsExact};

/// A type whose clones equal their originals, as contracts see the two. The cache clones keys,
/// values and errors, and promises the same of a clone as of the original: so it asks this of them.
///
/// A struct or an enum of such parts that derives `Clone` is exact by one line, which lets the check
/// find the proof:
///
/// ```
/// ghost use Rattle.std.proofs.Common.{rules};
///
/// impl Exact for Request {
///     ghost exact = { Prim.search rules };
/// }
/// ```
///
/// `String`, `Vec<T>`, `Box<T>` and `Arc<T>` are not exact. A contract sees more of them than what
/// they hold, as the capacity of a `String`, and a clone needn't have the same.
pub trait Exact: Clone {
    ghost exact: { IsExact Self.is_clone };
}
