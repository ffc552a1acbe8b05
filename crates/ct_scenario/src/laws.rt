//! Bytes are the text of at most one scenario, and each scenario has one text.
ghost use Rattle.std.specs.Prelude.{◌≡◌, ℕ, List, Ok};
ghost use Rattle.ct_lines.specs.declared.line.ScenarioLine.{ScenarioLine};
ghost use Rattle.ct_scenario.specs.Scenarios.{IsScenario, scenario_of, text_of};

/// What is read is written in its one text, and what is written is read again.
pub fn one_text()
    ensures only { (bytes : List ℕ) (lines : List ScenarioLine) → scenario_of bytes ≡ Ok lines → IsScenario lines × (bytes ≡ text_of lines) }
    ensures back { (lines : List ScenarioLine) → IsScenario lines → scenario_of (text_of lines) ≡ Ok lines }
{}
