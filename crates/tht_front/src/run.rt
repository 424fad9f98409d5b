// Runs of a file on one branch.
ghost use Rattle.std.specs.Prelude.{◌≡◌, true, IfOk};
ghost use Rattle.tht_logic.specs.PlainPrograms.{is_plain_file};
ghost use Rattle.tht_front.specs.Outcomes.{Shows};

use crate::course::Course;
use std::alloc::{AllocError, Global};
use tagged_interp::{Lab, LabSaid};
use tht_tree::file::Source1;
use tht_tree::run::End;

/// Makes branch 0's steps one after the other, as long as one comes next and costs no more than is left of the budget.
pub fn run(alloc: Global, file: &Source1, budget: u32) -> Result<Course, AllocError>
    requires plain { is_plain_file file.now ≡ true }
    ensures { IfOk result (Shows file.now budget) }
{
    let Ok(mut lab) = Lab::open(alloc, file) else {
        return Err(AllocError);
    };
    let mut left = budget;
    'steps: loop {
        let Ok(said) = lab.step(0, left) else {
            return Err(AllocError);
        };
        let steps = budget - left;
        match said {
            LabSaid::Went { cost } => left -= cost,
            LabSaid::Cannot => match lab.value() {
                Some(value) => return Ok(Course::Ended {
                    end: End::Done(value),
                    steps,
                }),
                None => unreachable!(),
            },
            LabSaid::Longer => return Ok(Course::Ended {
                end: End::Spent(0),
                steps,
            }),
            LabSaid::Big => return Ok(Course::Ended {
                end: End::Big(0),
                steps,
            }),
            LabSaid::Touch { .. } => return Ok(Course::Faulted),
            LabSaid::Wrong => return Ok(Course::Faulted),
        }
    }
}
