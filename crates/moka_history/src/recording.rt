//! Laws of entries and of the map that they leave.

ghost use Rattle.moka_history.specs.Laws.{ChangeIsMaps, LegalGoesOn, LegalWasLegal, MapGoesOn};

/// With one entry more the map has what that entry puts at its key, and else what it had.
pub fn map_goes_on<K, V>()
    ensures map { MapGoesOn K V }
{}

/// Entries stay legal with one more that names as former what the map has at its key.
pub fn legal_goes_on<K, V>()
    ensures legal { LegalGoesOn K V }
{}

/// Each beginning of legal entries is legal.
pub fn legal_was_legal<K, V>()
    ensures legal { LegalWasLegal K V }
{}

/// Where a call has changed its key, the entry of the change names as former what the map of the
/// words had there, and the map of the words is what it had, with what the entry puts.
pub fn change_is_maps<K, V>()
    ensures change { ChangeIsMaps K V }
{}
