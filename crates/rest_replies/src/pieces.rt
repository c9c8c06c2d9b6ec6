// Texts made of pieces.
ghost use Rattle.std.specs.Prelude.{◌≡◌, ◌++◌, [], if◌then◌else◌, OnOk, OnErr, IfSome, length};
ghost use Rattle.rest_replies.specs.Pieces.{pieces_text};

use gno_num::Memory;

/// Appends the pieces, one behind the other. After `Memory` nothing is appended.
pub fn append_all(pieces: &[&[u8]], out: &mut Vec<u8>) -> Result<(), Memory>
    ensures ok { OnOk result (out.new.items ≡ out.old.items ++ pieces_text pieces.now) }
    ensures err { OnErr result (out.new.items ≡ out.old.items) }
{
    let Some(size) = total_size(pieces) else {
        return Err(Memory);
    };
    out.reserve(size)?;
    for piece in pieces {
        out.extend_from_slice(piece)?;
    }
    Ok(())
}

/// How many bytes the pieces have together; `None` where that is over the largest number.
fn total_size(pieces: &[&[u8]]) -> Option<usize>
    ensures { IfSome result (λ size. size ≡ length (pieces_text pieces.now)) }
{
    let mut size = 0usize;
    for piece in pieces {
        size = size.checked_add(piece.len())?;
    }
    Some(size)
}

/// A piece that isn't always there.
pub fn when(is_there: bool, piece: &[u8]) -> &[u8]
    ensures { result.now ≡ (if is_there then piece.now else []) }
{
    if is_there { piece } else { b"" }
}

/// A piece that is always there.
pub fn always(piece: &[u8]) -> &[u8]
    ensures { result.now ≡ piece.now }
{
    piece
}
