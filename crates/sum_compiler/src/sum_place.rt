//! The places of a sum plan.

use crate::sum_step::SumStep;

/// A place of a sum plan: its step, the generator that the step is at, 0 where there is none, and
/// the generator of the polynomial that is made.
#[derive(Clone, Copy, PartialEq, Eq, Debug, Drop)]
pub struct SumPlace {
    pub step: SumStep,
    pub j: u32,
    pub k: u32,
}
