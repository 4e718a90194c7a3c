//! What cases are made of in both programs at once.

use invariant_cases::Point;

/// A point of each program, or of one alone, that is OFF or ON in both.
#[derive(Clone, Copy, PartialEq, Eq)]
pub struct JointPoint {
    pub old: Option<Point>,
    pub new: Option<Point>,
}

/// An instance of each program, or of one alone, that answers alike in both.
#[derive(Clone, Copy, PartialEq, Eq)]
pub struct JointInstances {
    pub old: Option<usize>,
    pub new: Option<usize>,
}

/// What cases are made of: points that are OFF or ON, or instances by what they answer.
#[derive(Clone, Copy, PartialEq, Eq)]
pub enum Joint {
    Points(JointPoint),
    Instances(JointInstances),
}
