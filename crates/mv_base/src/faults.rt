//! How a store counts its faults.

ghost use Rattle.std.specs.Prelude.{◌≡◌, ◌≤◌, string_bytes};
ghost use Rattle.mv_base.specs.Faults.{FaultCounts, Rose, last_count};

use crate::store::StoreFault;
use std::alloc::Global;

/// Counts a fault at `name` and keeps the name as the failed one. Where there is no memory to keep it, nothing changes
/// and the fault is `NoMemory`.
pub(crate) fn count_fault(
    alloc: Global,
    name: &str,
    count: &mut u64,
    failed: &mut String,
) -> StoreFault
    ensures counts { FaultCounts result count.old count.new name.now (string_bytes failed.old)
        (string_bytes failed.new) }
    ensures never_falls { count.old ≤ count.new }
    ensures to_last { count.old ≤ last_count → count.new ≤ last_count }
{
    match String::from_str(alloc, name) {
        Ok(name) => {
            *failed = name;
            *count = count.saturating_add(1);
            StoreFault::Failed
        }
        Err(_) => StoreFault::NoMemory,
    }
}
