ghost use Rattle.jd_taclet_scripts.specs.Laws.{TacletStepsAreSound, TacletStepsAreSteps};
ghost use Rattle.jd_taclet_scripts.specs.WorkedSteps.{StepsAreWorked};

use jd_taclet_steps::{
    places_are_surrounded, steps_of_sound_rows_are_sound, term_places_are_surrounded,
    terms_are_replaced,
};
use jd_tforms::answers;
use jd_told_programs::told_is_that;

/// In each program that the task's tables stand for, a step of a script is a step of its row.
pub fn taclet_steps_are_steps()
    ensures { TacletStepsAreSteps }
{
    places_are_surrounded();
    term_places_are_surrounded();
    terms_are_replaced();
    answers();
    told_is_that();
}

/// A step by a sound row, at a closed sequent, is sound.
pub fn taclet_steps_are_sound()
    ensures { TacletStepsAreSound }
{
    taclet_steps_are_steps();
    steps_of_sound_rows_are_sound();
}

/// Worked steps, of a whole formula with an assumed one and of a term: what a step asks can be met.
pub fn steps_are_worked()
    ensures { StepsAreWorked }
{}
