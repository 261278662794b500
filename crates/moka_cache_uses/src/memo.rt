//! A memo table.
ghost use Rattle.std.specs.Prelude.{◌≡◌, ◌*◌, IfOk};
ghost use Rattle.std.proofs.Common.{subst};
ghost use Rattle.std.proofs.lemmas.Bool.{eqb-true};

use crate::answers::Runtime;
use futures::future::lazy;
use moka_cache::{Cache, CacheBuilder, Fact, FixedSeed, NoListener, RetriesExhausted};
use std::alloc::Global;
use std::io;
use std::sync::atomic::{AtomicU64, Ordering};

/// The fact of the table: each value is the square of its number.
struct AreSquares;

impl Fact<u32, u64> for AreSquares {
    ghost holds = { λ root area. area ≡ root * root };

    ghost alike = { λ a b area same so. subst (λ root. area ≡ root * root) (eqb-true a b same) so };
}

/// Squares by their numbers.
type Squares = Cache<u32, u64, (), NoListener, FixedSeed, AreSquares>;

fn square_of(root: u32) -> u64
    ensures { result ≡ root * root }
{
    u64::from(root) * u64::from(root)
}

/// What the table gives for a number, which is its square: whoever loaded it, that is its fact.
fn load<R: Runtime>(
    rt: &R,
    memo: &Squares,
    root: u32,
    loads: &AtomicU64,
) -> io::Result<Result<u64, RetriesExhausted>>
    ensures { IfOk result (λ told. IfOk told (λ area. area ≡ root * root)) }
{
    let square = lazy(move |_| {
        loads.fetch_add(1, Ordering::SeqCst);
        square_of(root)
    });
    memo.get_with(root, square).block_on(rt, 0)
}

/// The square of a number, taken from the table where it is there.
fn squared<R: Runtime>(rt: &R, memo: &Squares, root: u32, loads: &AtomicU64) -> io::Result<u64>
    ensures { IfOk result (λ area. area ≡ root * root) }
{
    Ok(load(rt, memo, root, loads)??)
}

/// Squares a number twice.
pub(crate) fn show<R: Runtime>(rt: &R, alloc: Global) -> io::Result<()> {
    let memo: Squares = CacheBuilder::new(100).such::<AreSquares>().build(alloc)?;
    let loads = AtomicU64::new(0);
    let first = squared(rt, &memo, 7, &loads)?;
    let second = squared(rt, &memo, 7, &loads)?;
    let loads = loads.load(Ordering::SeqCst);
    println!(rt; "memo: {first} and {second} by {loads} load")
}
