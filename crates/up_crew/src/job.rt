use std::sync::Wait;

/// Work that a crew does.
pub trait Job {
    /// What the work needs of the job.
    ghost ready: { Self → Type 0 };

    /// What the work makes of it.
    ghost becomes: { Self → Self → Type 0 };

    /// Does the work. It may wait for what other jobs do, so whoever works such jobs one after the other may hang.
    fn work<R: Wait>(&mut self, rt: &R)
        requires { ready self.old }
        ensures { becomes self.old self.new };
}
