//! Laws of the words.
ghost use Rattle.std.specs.Prelude.{◌≡◌, ℕ, List};
ghost use Rattle.ak_words.specs.declared.job.Job.{Job};
ghost use Rattle.ak_words.specs.Words.{IsJob};

/// Words ask for one job at most.
pub fn one_job()
    ensures { (words : List (List ℕ)) (a b : Job) → IsJob words a → IsJob words b → a ≡ b }
{}
