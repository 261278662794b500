//! What a user wants to know of the reference gateway.

ghost use Rattle.std.specs.Prelude.{ℕ, List};
ghost use Rattle.std.specs.declared.result.Result.{Result};
ghost use Rattle.moka_collapsing.specs.declared.slot.Place.{Place};
ghost use Rattle.moka_collapsing.specs.Clients.{Client};
ghost use Rattle.moka_collapsing.specs.Laws.{CloseIsLawful, FeedIsLawful, IsSameInPieces, IsSentInOrder, OpensOne, ReplyIsLawful};
ghost use Rattle.moka_collapsing.specs.Reference.{Reference};
ghost use Rattle.moka_collapsing.specs.Runs.{Event};
ghost use Rattle.moka_collapsing.specs.Served.{IsServed};
ghost use Rattle.moka_collapsing.specs.Upstream.{Upstream};

use moka_requests::requests_are_of_all_bytes;

/// A client is sent the replies to the requests at its front, in order, up to the first that has no
/// answer.
pub fn replies_go_in_order()
    ensures { (client : Client) → IsSentInOrder client }
{}

/// A request opens an upstream request only for its own key, where that is not stored and no upstream
/// request of it is open.
pub fn upstream_requests_are_shared()
    ensures { (u : Upstream) (key : ℕ) (place : Place) → OpensOne u key place }
{}

/// A client that is fed two pieces, one after the other, brings about the fetches, the bytes and the
/// state that it brings about with one.
pub fn pieces_make_no_difference()
    ensures { (g : Reference) (number : ℕ) (client : Client) (front back : List ℕ)
        → IsSameInPieces g number client front back }
{}

/// What a user may rely on where a client is fed.
pub fn feeds_are_lawful()
    ensures { (g : Reference) (number : ℕ) (client : Client) (bytes : List ℕ)
        → FeedIsLawful g number client bytes }
{}

/// What a user may rely on where an upstream request brings something.
pub fn replies_are_lawful()
    ensures { (g : Reference) (key : ℕ) (brought : Result ℕ ℕ) → ReplyIsLawful g key brought }
{}

/// What a user may rely on where a client closes.
pub fn closes_are_lawful()
    ensures { (g : Reference) (number : ℕ) (client : Client) → CloseIsLawful g number client }
{}

/// What a user may rely on over a whole run, whatever happens: only values that were brought are
/// stored; each client is sent the replies to its requests, in order, and each reply answers its
/// request; a key has at most one open upstream request.
pub fn runs_are_served()
    ensures { (events : List Event) → IsServed events }
{
    requests_are_of_all_bytes();
}
