//! A list of calls of a walk, made by one function.
ghost use Rattle.std.specs.Prelude.{◌≡◌, IfOk, OnErr};

use crate::schedule::Moment;
use crate::schedule::inputs::Borrowed;
use crate::schedule::walk::Walker;
use std::alloc::{AllocError, Global};

/// A call of a walk.
#[derive(Clone, Copy, Debug, PartialEq, Eq)]
pub enum Turn {
    /// A call of `next`.
    Next,
    /// A call of `next_back`.
    NextBack,
}

impl<'a> Walker<Borrowed<'a>> {
    ghost use Rattle.cron.specs.Turns.{IsPlayed};

    /// Makes the calls of `turns` in order and returns their answers. If memory runs out the walk
    /// is unchanged.
    pub fn play(&mut self, alloc: Global, turns: &[Turn]) -> Result<Vec<Option<Moment>>, AllocError>
        ensures ok { IfOk result (λ answers. IsPlayed self.old turns.now answers.items self.new) }
        ensures err { OnErr result (self.new ≡ self.old) }
    {
        let mut answers = Vec::with_capacity(alloc, turns.len())?;
        for turn in turns {
            let answer = match turn {
                Turn::Next => self.next(),
                Turn::NextBack => self.next_back(),
            };
            answers.push(answer)?;
        }
        Ok(answers)
    }
}
