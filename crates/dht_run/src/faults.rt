//! Faults that are counted, and those that a test plans.

ghost use Rattle.std.specs.Prelude.{◌≡◌, ◌↔◌, ◌≤◌, IsTrue};
ghost use Rattle.dht_types.specs.Faults.{HasFault};
ghost use Rattle.dht_run.specs.Outside.{counted, IsNextPlanned};

/// Counts one more fault. The count stays at 2^64 - 1 once it is there.
pub fn count_fault(faults: &mut u64)
    ensures fault { HasFault faults.old faults.new }
    ensures grows { faults.old ≤ faults.new }
    ensures exact { faults.new ≡ counted faults.old }
{
    *faults = faults.saturating_add(1);
}

/// Which calls are to fail, and how many did.
#[derive(Drop)]
pub struct FaultPlan {
    /// The numbers of the calls that are to fail, counted from 1.
    pub fails: Vec<u64>,
    /// How many calls there were. The count stays at 2^64 - 1 once it is there.
    pub calls: u64,
    /// How many calls failed.
    pub faults: u64,
}

impl FaultPlan {
    /// The plan that these calls fail, counted from 1.
    pub fn new(fails: Vec<u64>) -> FaultPlan
        ensures { result ≡ record { fails = fails; calls = 0; faults = 0 } }
    {
        FaultPlan {
            fails,
            calls: 0,
            faults: 0,
        }
    }

    /// Counts one more call, and says whether it is to fail.
    pub fn is_next_planned(&mut self) -> bool
        ensures planned { IsTrue result ↔ IsNextPlanned self.old }
        ensures calls { self.new ≡ record self.old { calls = counted self.old.calls } }
    {
        self.calls = self.calls.saturating_add(1);
        self.fails.contains(&self.calls)
    }
}
