// The walker: an image, and the place in its contents from which the next step begins. Each function hands its work on to one over plain parameters.
ghost use Rattle.image_walker.specs.Steps.{StepAt, PartAt};
ghost use Rattle.image_walker.specs.Walks.{Walks};

use crate::steps::{Found, Step, part_at, step_at};
use refusals::Refusal;

#[derive(Clone, Copy)]
pub struct Walker<'a> {
    pub image: &'a [u8],
    pub place: usize,
}

impl<'a> Walker<'a> {
    // A walker over an image, before its first column.
    pub fn new(image: &'a [u8]) -> Walker<'a>
        ensures { Walks image.entry 0 result }
    {
        Walker { image, place: 0 }
    }

    // What the step from its place finds.
    pub fn step(self) -> Step
        ensures { StepAt self.entry.image.now self.entry.place result }
    {
        step_at(self.image, self.place)
    }

    // The bytes of what was found: a part of its image.
    pub fn part(self, found: Result<Option<Found>, Refusal>) -> &'a [u8]
        ensures { PartAt self.entry.image found result }
    {
        part_at(self.image, found)
    }

    // The walker over the same image from another place on.
    pub fn moved(self, place: usize) -> Walker<'a>
        ensures { Walks self.entry.image place result }
    {
        Walker {
            image: self.image,
            place,
        }
    }
}
