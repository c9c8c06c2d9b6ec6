// The header of a log.
ghost use Rattle.std.specs.Prelude.{◌≡◌, ℕ, Some, IfSome};
ghost use Rattle.log_pair.specs.declared.header.Header.{Header};
ghost use Rattle.log_pair.specs.declared.place.Place.{Place};
ghost use Rattle.log_pair.specs.Header.{FitsHeader, log_header};

use crate::Place;
use byteorder::{BigEndian, ByteOrder};

/// Whose log it is, and its epoch.
#[derive(Clone, Copy, Debug)]
pub struct Header {
    pub place: Place,
    pub epoch: u64,
}

/// The bytes of a header.
pub fn header_bytes(place: Place, epoch: u64) -> [u8; 18]
    ensures bytes { result ≡ log_header place epoch }
    ensures fits { FitsHeader place epoch }
{
    let mut bytes = [
        b'G', b'N', b'L', b'G', 1, place.role, 0, 0, 0, 0, 0, 0, 0, 0, 0, 0, 0, 0,
    ];
    BigEndian::write_u16(&mut bytes[6..], place.sack);
    BigEndian::write_u16(&mut bytes[8..], place.sacks);
    BigEndian::write_u64(&mut bytes[10..], epoch);
    bytes
}

/// The header that bytes are, if they are one.
pub fn read_header(bytes: &[u8]) -> Option<Header>
    ensures found { IfSome result (λ h. bytes.now ≡ log_header h.place h.epoch) }
    ensures fits { IfSome result (λ h. FitsHeader h.place h.epoch) }
    ensures only { (place : Place) (epoch : ℕ) → FitsHeader place epoch → bytes.now ≡ log_header place epoch
        → result ≡ Some (record { place = place; epoch = epoch }) }
{
    if bytes.len() != 18 {
        return None;
    }
    let place = Place {
        role: bytes[5],
        sack: BigEndian::read_u16(&bytes[6..]),
        sacks: BigEndian::read_u16(&bytes[8..]),
    };
    let epoch = BigEndian::read_u64(&bytes[10..]);
    if bytes == header_bytes(place, epoch).as_slice() {
        Some(Header { place, epoch })
    } else {
        None
    }
}
