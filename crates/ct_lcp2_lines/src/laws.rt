//! What follows for every input.
ghost use Rattle.ct_lcp2_lines.specs.Complete.{PlacingCompletes};

/// A good input, whose last line is ended and of which no line is refused, is read to its end where neither a read nor a
/// write fails and memory suffices.
pub fn a_good_input_is_placed()
    ensures { PlacingCompletes }
{}
