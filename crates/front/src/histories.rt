// The histories that a front of one thread stands for.
use crate::made::Made;
use crate::solo::Solo;
use front_api::Histories;
use gno_disk::Disk;

impl<D: Disk> Histories for Solo<D> {
    type Made = Made;

    ghost use Rattle.std.specs.Prelude.{length};
    ghost use Rattle.front.specs.SoloView.{StandsForBooks};

    ghost stands = { λ solo books. StandsForBooks D.Disk solo books };

    ghost sack_count = { λ solo. length solo.sacks };

    ghost duty = { λ solo. solo.duty };

    ghost made = { λ solo. solo.made };
}
