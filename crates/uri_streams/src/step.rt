//! What a step of a run has beside what it reads and writes.
ghost use Rattle.std.specs.Prelude.{◌≡◌, ◌+◌, ◌-◌, ◌^◌, ◌<◌};

use crate::job::Job;
use std::alloc::Global;

/// What a step of a run has beside what it reads and writes.
#[derive(Clone, Copy)]
pub(crate) struct Step<'a> {
    /// The allocator of the run.
    pub alloc: Global,
    /// The job of the run.
    pub job: &'a Job<'a>,
    /// How many lines were processed before this step.
    pub before: u64,
    ghost in_range: { before < 2 ^ 64 - 1 },
}

impl Step<'_> {
    /// Returns the number of the line that the step processes, from 1.
    pub(crate) fn number(self) -> u64
        ensures { result ≡ self.entry.before + 1 }
    {
        self.before + 1
    }
}
