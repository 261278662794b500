//! Computes by closures to futures.
ghost use Rattle.std.specs.Prelude.{◌≡◌, IfOk, IsOk};
ghost use Rattle.moka_cache.specs.Asked.{IsPut};
ghost use Rattle.moka_cache.specs.Calls.{CallsTo, CanCall, CanGoOn, PutsSuch, WasCalled};
ghost use Rattle.moka_cache.specs.declared.calling.Calling.TheVariants as Calling;

use crate::calling::Calling;
use crate::compute::Compute;
use futures::Future;
use futures::task::{Context, Poll};
use moka_hist::{Entry, Op};

/// A compute by a closure, whose future gives what is to be done.
#[derive(Drop)]
pub struct OpBy<F, G> {
    calling: Calling<F, G>,
}

/// Makes a compute of a closure to a future of what is to be done with a key. It gives no error.
///
/// The closure is called once, right after the look, with what that found. The future may not keep
/// what the closure is lent: that copies what it needs.
pub fn op_by<K, V, F, G>(f: F) -> OpBy<F, G>
where
    F: FnOnce(Option<&Entry<K, V>>) -> G + Drop,
    G: Future<Output = Op<V>>,
    ensures { result.calling ≡ Calling.Uncalled f }
{
    OpBy {
        calling: Calling::Uncalled(f),
    }
}

impl<K, V, E, F, G> Compute<K, V, E> for OpBy<F, G>
where
    F: FnOnce(Option<&Entry<K, V>>) -> G + Drop,
    G: Future<Output = Op<V>>,
{
    ghost can_start = { λ by found. CanCall F.pre F.post G.can_poll by.calling found };

    ghost can_poll = { λ by. CanGoOn G.can_poll by.calling };

    ghost gives = { λ by r. IsOk r × IfOk r (CallsTo F.post G.gives by.calling) };

    ghost started = { λ by found. WasCalled F.post G.gives by.calling found };

    fn start(&mut self, found: Option<&Entry<K, V>>) {
        self.calling.call(found);
    }

    fn poll(&mut self, cx: &mut Context<'_>) -> Poll<Result<Op<V>, E>> {
        match self.calling.poll::<K, V>(cx) {
            Poll::Ready(op) => Poll::Ready(Ok(op)),
            Poll::Pending => Poll::Pending,
        }
    }
}

/// A compute by a closure, whose future gives what is to be done, or an error.
#[derive(Drop)]
pub struct TryOpBy<F, G> {
    calling: Calling<F, G>,
}

/// Makes a compute of a closure to a future of what is to be done with a key, or of an error. The
/// closure is called once, right after the look, with what that found; its future may not keep that.
pub fn try_op_by<K, V, E, F, G>(f: F) -> TryOpBy<F, G>
where
    F: FnOnce(Option<&Entry<K, V>>) -> G + Drop,
    G: Future<Output = Result<Op<V>, E>>,
    ensures { result.calling ≡ Calling.Uncalled f }
{
    TryOpBy {
        calling: Calling::Uncalled(f),
    }
}

impl<K, V, E, F, G> Compute<K, V, E> for TryOpBy<F, G>
where
    F: FnOnce(Option<&Entry<K, V>>) -> G + Drop,
    G: Future<Output = Result<Op<V>, E>>,
{
    ghost can_start = { λ by found. CanCall F.pre F.post G.can_poll by.calling found };

    ghost can_poll = { λ by. CanGoOn G.can_poll by.calling };

    ghost gives = { λ by r. CallsTo F.post G.gives by.calling r };

    ghost started = { λ by found. WasCalled F.post G.gives by.calling found };

    fn start(&mut self, found: Option<&Entry<K, V>>) {
        self.calling.call(found);
    }

    fn poll(&mut self, cx: &mut Context<'_>) -> Poll<Result<Op<V>, E>> {
        self.calling.poll::<K, V>(cx)
    }
}

/// A compute by a closure, whose future gives the value that is to be stored.
#[derive(Drop)]
pub struct ValueBy<F, G> {
    calling: Calling<F, G>,
}

/// Makes a compute of a closure to a future of the value that is to be stored under a key. The
/// closure is called once, right after the look, with what that found; its future may not keep that.
pub fn value_by<K, V, F, G>(f: F) -> ValueBy<F, G>
where
    F: FnOnce(Option<&Entry<K, V>>) -> G + Drop,
    G: Future<Output = V>,
    ensures { result.calling ≡ Calling.Uncalled f }
{
    ValueBy {
        calling: Calling::Uncalled(f),
    }
}

impl<K, V, E, F, G> Compute<K, V, E> for ValueBy<F, G>
where
    F: FnOnce(Option<&Entry<K, V>>) -> G + Drop,
    G: Future<Output = V>,
{
    ghost can_start = { λ by found. CanCall F.pre F.post G.can_poll by.calling found };

    ghost can_poll = { λ by. CanGoOn G.can_poll by.calling };

    ghost gives = { λ by r. IsPut r × PutsSuch (CallsTo F.post G.gives by.calling) r };

    ghost started = { λ by found. WasCalled F.post G.gives by.calling found };

    fn start(&mut self, found: Option<&Entry<K, V>>) {
        self.calling.call(found);
    }

    fn poll(&mut self, cx: &mut Context<'_>) -> Poll<Result<Op<V>, E>> {
        match self.calling.poll::<K, V>(cx) {
            Poll::Ready(value) => Poll::Ready(Ok(Op::Put(value))),
            Poll::Pending => Poll::Pending,
        }
    }
}
