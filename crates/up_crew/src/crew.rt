ghost use Rattle.std.specs.Prelude.{◌≡◌, ℕ, ◌<◌, All};
ghost use Rattle.up_crew.specs.Worked.{AllWorked};

use crate::job::Job;
use std::sync::Wait;
use std::thread::{self, Threads};

/// Who does jobs: beside each other, or one after the other.
pub trait Crew {
    /// How many threads do so many jobs. One does them in their order; with fewer than there are jobs, one that waits
    /// for another may wait for ever.
    fn threads(&self, jobs: usize) -> usize
        ensures { 0 < result };

    /// Does all jobs, and gives them back in their places once all have ended. Where no thread can be made they are
    /// done one after the other.
    final fn together<J: Job + Send, R: Threads + Wait + Sync>(
        &mut self,
        rt: &R,
        jobs: Vec<J>,
    ) -> Vec<J>
        requires { All J.ready jobs.items }
        ensures { AllWorked J.becomes jobs.items result.items }
    {
        let mut jobs = jobs;
        let threads = self.threads(jobs.len());
        work_all(rt, jobs.as_mut_slice(), threads);
        jobs
    }
}

/// Does jobs one after the other.
pub struct SerialCrew;

impl Crew for SerialCrew {
    fn threads(&self, _jobs: usize) -> usize {
        1
    }
}

/// Does jobs beside each other, each on a thread of its own.
pub struct ThreadCrew;

impl Crew for ThreadCrew {
    fn threads(&self, jobs: usize) -> usize {
        jobs.max(1)
    }
}

/// Does all jobs with at most so many threads.
fn work_all<J: Job + Send, R: Threads + Wait + Sync>(rt: &R, jobs: &mut [J], threads: usize)
    requires some { 0 < threads }
    requires ready { All J.ready jobs.old }
    ensures { AllWorked J.becomes jobs.old jobs.new }
{
    let work = |_place: usize, job: &mut J|
        requires { J.ready job.now }
        ensures { J.becomes job.entry.now job.exit.now }
    { job.work(rt) };
    thread::for_each_mut(rt, jobs, threads, &work);
}
