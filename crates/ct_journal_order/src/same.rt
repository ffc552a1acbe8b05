//! Whether two messages are the same.
ghost use Rattle.std.specs.Prelude.{◌≡◌, ◌↔◌, IsTrue};

use ct_frame::frame::Frame;

/// Are the two the same?
#[tactic(auto, using(crate::proofs::Sameness::decides_frame))]
pub fn same(a: &Frame, b: &Frame) -> bool
    ensures { IsTrue result ↔ (a.now ≡ b.now) }
{
    a == b
}
