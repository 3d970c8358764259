// A topic file as a list of pieces, each a list of fields, so that what is wanted can be read.
use samza_model::NoMemory;
use std::alloc::Global;

/// A piece of a file, field by field: a frame with the gate before it, or a gate alone.
pub type Piece = &'static [&'static [u8]];

/// A file, piece by piece.
pub type File = &'static [Piece];

/// The bytes of these pieces, one behind the other.
pub fn joined(alloc: Global, pieces: &[Piece]) -> Result<Vec<u8>, NoMemory> {
    let mut bytes = Vec::new(alloc);
    for piece in pieces {
        for field in *piece {
            bytes.extend_from_slice(field)?;
        }
    }
    Ok(bytes)
}
