//! What is run at each fire.

ghost use Rattle.std.specs.Prelude.{⊤, Result};

/// What is run at each fire.
pub trait Job<F> {
    /// Why the job failed, which ends a run.
    type Error;

    // the statement that the job may be run, now and ever after
    ghost can_run: { Self → Type 0 } = { λ _. Unit {0} };

    // a run of the job: the job before it, the fire, the answer, and the job after it
    ghost runs: { Self → F → Result ⊤ Self.Error → Self → Type 0 } = { λ _ _ _ _. Unit {0} };

    /// Runs the job for a fire.
    fn run(&mut self, fire: F) -> Result<(), Self::Error>
        requires { can_run self.old }
        ensures stays { can_run self.new }
        ensures call { runs self.old fire result self.new };
}

/// A closure is a job.
impl<E, F, C: FnMut(F) -> Result<(), E>> Job<F> for C {
    type Error = E;

    ghost can_run = { λ c. C.IsAlwaysCallable c };

    ghost runs = { λ old fire result new. C.step old fire result new };

    fn run(&mut self, fire: F) -> Result<(), E> {
        self(fire)
    }
}
