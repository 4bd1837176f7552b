//! The answers for zones, by the verdict on each.
ghost use Rattle.std.specs.Prelude.{◌≡◌, IfOk, length, map};
ghost use Rattle.vortex_capi.specs.Prunes as spec;

use std::alloc::{AllocError, Global};
use vortex_prune::Verdict;

const READ: u8 = 0;

const SKIP: u8 = 1;

const WHOLE: u8 = 2;

// The answer for a zone, without a branch, so that a loop of vector instructions is made of it.
#[inline]
fn answer_of(verdict: Verdict) -> u8
    ensures { result ≡ spec.answer_of verdict }
{
    let (skipped, whole) = (
        u8::from(matches!(verdict, Verdict::Skipped)),
        u8::from(matches!(verdict, Verdict::Whole)),
    );
    skipped * SKIP + whole * WHOLE
}

// Puts that for each zone in its place.
fn put_answers(verdicts: &[Verdict], answers: &mut [u8])
    requires { length answers.old ≡ length verdicts.now }
    ensures { answers.new ≡ map spec.answer_of verdicts.now }
{
    for place in 0..answers.len() {
        answers[place] = answer_of(verdicts[place]);
    }
}

/// The answer for each zone.
pub(crate) fn answers_of(alloc: Global, verdicts: &[Verdict]) -> Result<Vec<u8>, AllocError>
    ensures { IfOk result (λ answers. answers.items ≡ map spec.answer_of verdicts.now) }
{
    let mut answers = Vec::new(alloc);
    answers.resize(verdicts.len(), READ)?;
    put_answers(verdicts, &mut answers);
    Ok(answers)
}
