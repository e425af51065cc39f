ghost use Rattle.std.specs.Prelude.{◌≡◌, ◌≤◌};
ghost use Rattle.dq_base.specs.Faults.{one_more};

/// Something outside failed: a read, a write or a call of the operating system. What failed has counted it.
#[derive(Clone, Copy, Debug, PartialEq, Eq, Hash)]
pub struct Failed;

/// Counts one more fault. A count stays at 18,446,744,073,709,551,615.
pub(crate) fn count_fault(faults: &mut u64)
    ensures count { faults.new ≡ one_more faults.old }
    ensures never_falls { faults.old ≤ faults.new }
{
    *faults = faults.saturating_add(1);
}
