//! Syncs all files.
ghost use Rattle.std.specs.Prelude.{◌≡◌, ◌<◌, ◌≤◌, ℕ, length, OnOk, IfErr};
ghost use Rattle.ak_host.specs.Causes.{Rose};
ghost use Rattle.ak_host.specs.Moments.{DiskPasses, IsStable, LeavesNow};

use ak_base::Stop;
use ak_host::Disk;

/// Syncs every file once. After it, a stop leaves of each file what a read gives.
pub fn sync_all<D: Disk>(disk: &mut D) -> Result<(), Stop>
    ensures err { IfErr result (λ stop. (stop ≡ Stop.Disk) × Rose (D.state disk.old).disk_faults (D.state disk.new).disk_faults) }
    ensures stable { D.tells → OnOk result ((file : ℕ) → file < length (D.state disk.old).sizes → IsStable file (D.state disk.new)) }
    ensures files { D.tells → (D.state disk.new).files ≡ (D.state disk.old).files }
    ensures moments { D.tells → DiskPasses (LeavesNow (D.state disk.old)) (D.state disk.old) (D.state disk.new) }
    ensures sizes { (D.state disk.new).sizes ≡ (D.state disk.old).sizes }
    ensures later { (D.state disk.old).disk_faults ≤ (D.state disk.new).disk_faults }
    ensures port_faults { (D.state disk.new).port_faults ≡ (D.state disk.old).port_faults }
    ensures reads { D.tells → (D.state disk.new).reads ≡ (D.state disk.old).reads }
    ensures writes { D.tells → (D.state disk.new).writes ≡ (D.state disk.old).writes }
{
    for file in 0..disk.files() {
        if disk.sync(file).is_err() {
            return Err(Stop::Disk);
        }
    }
    Ok(())
}
