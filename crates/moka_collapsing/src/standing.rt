//! How the requests that wait stand on the calls of a cache.

ghost use Rattle.moka_collapsing.specs.Coming.{ListsAreAnswered, RequestsCome, RequestsLeave};

/// The call of a request for a stored key comes to its value; else it asks where nobody waits for the
/// key, and waits where somebody does. The cache serves the lists then.
pub fn requests_come()
    ensures { RequestsCome }
{}

/// Where a request leaves its list, the cache serves the lists once one call was dropped, for which
/// nobody waits: the call that asks is handed over to the next request.
pub fn requests_leave()
    ensures { RequestsLeave }
{}

/// A call that asks is told what was brought, and answers that when it is polled; so does each call
/// that waited for it. The cache serves the other lists then.
pub fn lists_are_answered()
    ensures { ListsAreAnswered }
{}
