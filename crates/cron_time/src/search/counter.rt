//! Counters of questions. A question is a look-up of the nearest member of one set.
ghost use Rattle.std.specs.Prelude.{ℕ};
ghost use Rattle.cron_time.specs.Search.Inner.Questions.{GoesUp, Joins, goes_up-joins};

/// A counter that a search passes along to count its questions.
pub(crate) trait Counter {
    /// Whether a number of questions leads from one state of the counter to another.
    ghost Counts: { ℕ → Self → Self → Type 0 };

    /// Counts one more question.
    fn count_one(&mut self)
        ensures { Counts 1 self.old self.new };

    /// If some questions lead from one state to a second, and others from there to a third, their
    /// sum leads from the first to the third.
    ghost joined: { Joins Counts };
}

/// The counter of searches that promise no count: it counts nothing.
#[derive(Clone, Copy)]
pub(crate) struct Uncounted;

impl Counter for Uncounted {
    ghost Counts = { λ n old new. Unit {0} };

    #[inline(always)]
    fn count_one(&mut self) {}

    ghost joined = { λ m n a b c h k. tt };
}

/// The number of questions, counted from 0 again after 2^64. So no search needs a bound for it.
#[derive(Clone, Copy)]
pub(crate) struct Questions {
    pub(crate) asked: u64,
}

impl Counter for Questions {
    ghost Counts = { λ n old new. GoesUp n old.asked new.asked };

    #[inline(always)]
    fn count_one(&mut self) {
        self.asked = self.asked.wrapping_add(1);
    }

    ghost joined = { λ m n a b c. goes_up-joins m n a.asked b.asked c.asked };
}
