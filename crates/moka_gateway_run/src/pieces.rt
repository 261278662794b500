//! The bytes that a client sends or is sent. In a line each byte 10 of them stands as `;`.
ghost use Rattle.std.specs.Prelude.{◌≡◌, ◌++◌, map, IfOk, OnOk};
ghost use Rattle.moka_gateway_run.specs.Pieces.{piece_in, read_byte, shown, shown_byte};

use moka_hist::Listing;
use std::alloc::{AllocError, Global};

/// The byte that ends a line.
const END: u8 = b'\n';

/// The byte that stands for it in the text of a piece.
const MARK: u8 = b';';

/// Bytes that a client has sent.
pub type Piece = Listing<u8>;

/// The byte that this one of a text stands for.
fn read_byte(byte: u8) -> u8
    ensures { result ≡ read_byte byte }
{
    if byte == MARK { END } else { byte }
}

/// The byte that stands for this one in a text.
fn shown_byte(byte: u8) -> u8
    ensures { result ≡ shown_byte byte }
{
    if byte == END { MARK } else { byte }
}

/// The bytes that a text stands for.
fn read_bytes(alloc: Global, text: &[u8]) -> Result<Piece, AllocError>
    ensures { IfOk result (λ bytes. bytes ≡ map read_byte text.now) }
{
    let mut bytes = Vec::with_capacity(alloc, text.len())?;
    for byte in text {
        bytes.push(read_byte(*byte))?;
    }
    Ok(Piece::from_vec(bytes))
}

/// The piece that a text spells, if it spells one: it has a byte at least, and no byte 10.
#[tactic(auto, unfolding(crate::specs::Pieces::piece_in))]
pub(crate) fn piece_in(alloc: Global, text: &[u8]) -> Result<Option<Piece>, AllocError>
    ensures { IfOk result (λ piece. piece ≡ piece_in text.now) }
{
    if text.is_empty() || text.contains(&END) {
        return Ok(None);
    }
    Ok(Some(read_bytes(alloc, text)?))
}

/// Appends the text of bytes.
pub fn push_piece(text: &mut Vec<u8>, bytes: &[u8]) -> Result<(), AllocError>
    ensures { OnOk result (text.new.items ≡ text.old.items ++ shown bytes.now) }
{
    for byte in bytes {
        text.push(shown_byte(*byte))?;
    }
    Ok(())
}
