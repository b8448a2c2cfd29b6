// The signatures of trees under a job: the theory of the classes that a job tells apart.
#![tactic(auto)]

pub mod evaluate;

ghost use Rattle.signatures.specs.Laws.{JobLaws, SignatureLaws};

// Signatures tell the classes of a job, there are finitely many, and one tree of each tells whether the job fits.
pub fn laws_stand()
    ensures signatures { SignatureLaws }
    ensures classes { JobLaws }
{}
