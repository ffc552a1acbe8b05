//! What the grammar says of all lines.
ghost use Rattle.std.specs.Prelude.{◌≡◌, ℕ, IsSome, List, None, Some, true};
ghost use Rattle.ct_lines.specs.Grammar.{line_of};
ghost use Rattle.ct_lines.specs.Places.{Accepted, refusal, with_line};
ghost use Rattle.ct_lines.specs.Spelled.{IsInRange, spelled_line};
ghost use Rattle.ct_lines.specs.declared.line.ScenarioLine.{ScenarioLine};

/// Each line in its range has one text, which is read as that line, and no other bytes are read as it. Nothing out of
/// its range is read.
pub fn one_text()
    ensures only { (line : List ℕ) (item : ScenarioLine) → line_of line ≡ Some item → IsInRange item × (line ≡ spelled_line item) }
    ensures back { (item : ScenarioLine) → IsInRange item → line_of (spelled_line item) ≡ Some item }
{}

/// Once a line came that says nothing of what the cluster is, the lines that are accepted change nothing of what was
/// accepted: so the configuration stands.
pub fn stands_once_begun()
    ensures { (line : ScenarioLine) (a : Accepted) → IsSome a.nodes → a.begun ≡ true → refusal line a ≡ None → with_line line a ≡ a }
{}
