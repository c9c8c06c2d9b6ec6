// Ranges of a small disk of blocks.
use crate::Extents;
use std::test::Fail;

#[test]
fn ranges_are_taken_and_given(rt: HostRuntime) -> Result<(), Fail> {
    let used = [(0, 512), (1024, 256)];
    let mut extents = Extents::of_used(rt.alloc(), &used)?;
    assert_eq!(rt; extents.free(), [(512, 512)].as_slice());
    assert_eq!(rt; extents.end(), 1280);
    let first = extents.take(256);
    assert_eq!(rt; first, 512);
    assert_eq!(rt; extents.end(), 1280);
    let second = extents.take(512);
    assert_eq!(rt; second, 1280);
    extents.reserve(1)?;
    extents.give(0, 512);
    assert_eq!(rt; extents.free(), [(0, 512), (768, 256)].as_slice());
    Ok(())
}

#[test]
fn ranges_are_claimed(rt: HostRuntime) -> Result<(), Fail> {
    let mut extents = Extents::new(rt.alloc());
    // a place, a length, and whether no place of the range was used
    let claims: [(u64, u32, bool); 9] = [
        (1000, 24, true),
        (100, 50, true),
        (120, 10, false),
        (90, 20, false),
        (149, 2, false),
        (0, 100, true),
        (999, 2, false),
        (2000, 10, true),
        (1024, 976, true),
    ];
    for (at, len, claimed) in claims {
        assert_eq!(rt; extents.claim(at, len)?, claimed, "{at}");
    }
    assert_eq!(rt; extents.end(), 2010);
    assert_eq!(rt; extents.free(), [(150, 850)].as_slice());
    Ok(())
}
