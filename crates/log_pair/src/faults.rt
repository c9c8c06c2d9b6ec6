// Faults of two disks.
ghost use Rattle.std.specs.Prelude.{◌≡◌, ⊤, IfErr};
ghost use Rattle.log_pair.specs.PairView.{both_faults};

use gno_disk::Disk;

/// How often two disks have failed.
pub fn both_faults<D: Disk>(a: &D, b: &D) -> u64
    ensures { result ≡ both_faults D.Disk a.now b.now }
{
    a.faults().saturating_add(b.faults())
}
