//! What a piece gives.
use ct_frame::frame::Frame;

/// What a piece gives.
#[derive(Debug, Drop)]
pub struct Arrived {
    /// The frames that it completes, in order.
    pub frames: Vec<Frame>,
    /// Where the bytes behind these frames break a rule: the offset in their frame.
    pub broken: Option<u64>,
}
