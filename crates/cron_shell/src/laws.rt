//! Laws over the definitions: the functions do nothing, and a caller calls one for what its
//! contract says.

ghost use Rattle.std.specs.Prelude.{ℕ, List, Option};
ghost use Rattle.cron_shell.specs.Lines.{IsJobLine, Work, job_line};
ghost use Rattle.cron_shell.specs.Quoted.{quoted};
ghost use Rattle.cron_shell.specs.Words.{IsTakenFor};

/// A shell reads a quoted text as that text, and the line of a job as the words that are run at a
/// fire. No byte in them ends a word, opens another or is interpreted. The same holds for the files
/// that are locked and written.
pub fn lines_are_taken_as_they_are()
    ensures words { (text : List ℕ) → IsTakenFor text (quoted text) }
    ensures lines { (w : Work) (lock log : Option (List ℕ)) (fire : List ℕ)
        → IsJobLine w lock log fire (job_line w lock log fire) }
{}
