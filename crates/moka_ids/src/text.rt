//! The text of an id.

ghost use Rattle.std.specs.Prelude.{◌≡◌, ◌++◌, OnErr, OnOk};
ghost use Rattle.std.specs.String.{string_bytes};
ghost use Rattle.moka_ids.specs.Text.{id_text};

use std::alloc::AllocError;
use uuid::Uuid;

/// Appends the id as a UUID: 32 hexadecimal digits in lower case, in groups of 8, 4, 4, 4 and 12.
/// Where memory is wanting the text is as before.
pub fn push_id(text: &mut String, id: u128) -> Result<(), AllocError>
    ensures ok { OnOk result (string_bytes text.new ≡ string_bytes text.old ++ id_text id) }
    ensures err { OnErr result (string_bytes text.new ≡ string_bytes text.old) }
{
    let mut buffer = Uuid::encode_buffer();
    let digits = Uuid::from_u128(id).hyphenated().encode_lower(&mut buffer);
    match text.push_str(digits) {
        Ok(()) => Ok(()),
        Err(e) => Err(e),
    }
}
