// A host's fault.
ghost use Rattle.std.specs.Prelude.{◌≡◌};
ghost use Rattle.samza_container.specs.Causes.{host_fault};

use container_texts::RunFault;
use disk_model::HostFault;

/// A host's fault as the run's.
pub(crate) fn of_host(fault: HostFault) -> RunFault
    ensures { result ≡ host_fault fault }
{
    match fault {
        HostFault::Device => RunFault::Device,
        HostFault::NoMemory => RunFault::NoMemory,
    }
}
