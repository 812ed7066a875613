// What the readers hand out.
use inputs::Shape;
use maps::Map;

// The shape that an image has, and the columns that are present.
#[derive(Clone, Copy, Debug, PartialEq, Eq)]
pub struct Contents {
    pub shape: Shape,
    pub map: Map,
}
