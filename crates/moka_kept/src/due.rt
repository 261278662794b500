//! A notice that is due.
ghost use Rattle.std.specs.Prelude.{◌≡◌, IfSome};

use crate::listener::Listener;
use moka_hist::Cause;

/// A notice that a call has opened, and that no listener was started with yet: that this value has
/// left this key, and why. It has the number of the call. It has no `Drop`, so nobody can leave it
/// unheard: `start` alone takes it apart.
pub struct DueNotice<K, V> {
    notice: u64,
    key: K,
    value: V,
    cause: Cause,
}

impl<K: Drop, V: Drop> DueNotice<K, V> {
    /// The notice of this number.
    pub(crate) fn of(notice: u64, key: K, value: V, cause: Cause) -> Self
        ensures { result ≡ record { notice = notice; key = key; value = value; cause = cause } }
    {
        DueNotice {
            notice,
            key,
            value,
            cause,
        }
    }

    /// Starts the listener with it, if there is one.
    pub fn start<L: Listener<K, V>>(self, listener: &Option<L>)
        requires hears { IfSome listener.now (λ l. L.hears l self.key self.value) }
    {
        let DueNotice {
            notice,
            key,
            value,
            cause,
        } = self;
        if let Some(listener) = listener {
            listener.start(notice, &key, &value, cause);
        }
    }
}
