//! How the outcome of a call of the system is answered and counted.

ghost use Rattle.std.specs.Prelude.{◌≡◌, ◌≤◌, IfOk, OnErr, OnOk};
ghost use Rattle.gs_bytes.specs.Memory.{count_up};

use gs_bytes::Failed;
use std::io;

/// Answers the outcome, where an error is a fault, which is counted. The count stands still at its
/// type's end.
pub fn counted(faults: &mut u64, outcome: io::Result<usize>) -> Result<usize, Failed>
    ensures value { IfOk outcome (λ n. result ≡ Ok n) }
    ensures quiet { OnOk outcome (faults.new ≡ faults.old) }
    ensures fault { OnErr outcome (result ≡ Err Failed.Fault) }
    ensures never_falls { faults.old ≤ faults.new }
    ensures rises { OnErr outcome (faults.new ≡ count_up faults.old) }
{
    match outcome {
        Ok(n) => Ok(n),
        Err(_error) => {
            *faults = faults.saturating_add(1);
            Err(Failed::Fault)
        }
    }
}
