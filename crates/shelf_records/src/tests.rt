// Splits of one minute, whose keys are multiples of 216,000 seconds.
ghost use Rattle.std.specs.Prelude.{◌≡◌, ◌*◌, ◌^◌};

use crate::{Move, Series, Stored};
use gno_codec::Block;
use gno_num::Stamp;
use std::test::Fail;

fn key(number: u8) -> Stamp
    ensures { result ≡ number * (216_000 * 10 ^ 9) }
{
    Stamp::of_nanos(u64::from(number) * 216_000_000_000_000).unwrap()
}

/// A block in the slot with this number.
fn block(slot: u8) -> Block {
    Block {
        at: u64::from(slot) * 98_304,
        len: 28,
    }
}

fn stored(number: u8, slot: u8) -> Stored
    ensures { result.key ≡ number * (216_000 * 10 ^ 9) }
{
    Stored {
        key: key(number),
        block: block(slot),
    }
}

#[test]
fn splits_move_and_go(rt: HostRuntime) -> Result<(), Fail> {
    let mut series = Series::new(rt.alloc());
    series.change(key(2), Some(block(0)))?;
    series.change(key(1), Some(block(1)))?;
    series.change(key(3), Some(block(2)))?;
    series.change(key(2), Some(block(3)))?;
    series.change(key(1), None)?;
    let keys = [key(2), key(3)];
    assert_eq!(rt; series.keys(), keys.as_slice());
    assert_eq!(rt; series.block_of(key(1)), None);
    assert_eq!(rt; series.block_of(key(2)), Some(block(3)));
    assert_eq!(rt; series.block_of(key(3)), Some(block(2)));
    Ok(())
}

#[test]
fn splits_turn(rt: HostRuntime) -> Result<(), Fail> {
    let mut series = Series::new(rt.alloc());
    series.change(key(1), Some(block(0)))?;
    series.change(key(2), Some(block(1)))?;
    series.change(key(3), Some(block(2)))?;
    let made = [stored(3, 3), stored(4, 4)];
    assert_eq!(rt; series.keys().len(), 3);
    let (turned, moves) = series.turned(rt.alloc(), 1, 2, &made)?;
    let keys = [key(2), key(3), key(4)];
    assert_eq!(rt; turned.keys(), keys.as_slice());
    let wanted = [
        Move {
            key: key(1),
            block: None,
        },
        Move {
            key: key(3),
            block: Some(block(3)),
        },
        Move {
            key: key(4),
            block: Some(block(4)),
        },
    ];
    assert_eq!(rt; moves.as_slice(), wanted.as_slice());
    Ok(())
}
