//! Where a node may be held up before its turn.
ghost use Rattle.std.specs.Prelude.{◌∷◌, [], ℕ, List, Option, None};
ghost use Rattle.ct_outside.specs.Told.{Lists};

/// What a node passes before each of its turns. It may wait there.
pub trait Gate {
    /// The node and the number of the turn at each of its passes so far, in order, where the gate lists them.
    ghost passes: { Self → Option (List (ℕ × ℕ)) };

    fn pass(&mut self, node: u32, turn: u64)
        ensures { Lists ((node, turn) ∷ []) (passes self.old) (passes self.new) };
}

/// A gate that is always open.
#[derive(Clone, Copy, Debug)]
pub struct OpenGate;

impl Gate for OpenGate {
    ghost passes = { λ _. None };

    /// Does not wait.
    fn pass(&mut self, _node: u32, _turn: u64) {}
}
