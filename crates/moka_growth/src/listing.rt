//! Laws of the nodes that a call lists, while others change them.

ghost use Rattle.moka_growth.specs.Laws.{
  ListedKeyEnds,
  ListedKeyGoesOn,
  ListedKeyLasts,
  ListingEnds,
  ListingGoesOn,
  ListingLasts,
};

/// While others make their accesses, a list with no key twice stays one, and its keys stay those of
/// buckets that the call has passed.
pub fn listing_lasts()
    ensures lasts { ListingLasts }
{}

/// A present key whose bucket the call has passed stays listed while others make their accesses.
pub fn listed_key_lasts()
    ensures lasts { ListedKeyLasts }
{}

/// An access of the call itself lists no key twice, and no node that is not present then.
pub fn listing_goes_on()
    ensures lists { ListingGoesOn }
{}

/// An access of the call itself lists a present key once it passes the key's bucket.
pub fn listed_key_goes_on()
    ensures lists { ListedKeyGoesOn }
{}

/// The list with which a call ends has no key twice, and its last nodes are present then.
pub fn listing_ends()
    ensures lists { ListingEnds }
{}

/// The list with which a call ends has each key that has stayed present.
pub fn listed_key_ends()
    ensures lists { ListedKeyEnds }
{}
