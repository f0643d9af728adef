// What a draft knows of its frame.
use xbus::DataLen;

// Where the frame begins, and how many data bytes it has so far.
#[derive(Clone, Copy)]
pub struct Extent {
    pub start: usize,
    pub size: DataLen,
}
