//! Writing a whole scenario.
ghost use Rattle.std.specs.Prelude.{◌≡◌, ◌∷◌, ◌++◌, [], IfOk, OnOk, Ok};
ghost use Rattle.ct_lines.specs.Spelled.{spelled_line};
ghost use Rattle.ct_scenario.specs.Scenarios.{IsScenario, scenario_of, text_of};

use crate::scenario::Scenario;
use ct_lines::line::ScenarioLine;
use ct_lines::print::print_line;
use ct_values::memory::NoMemory;
use std::alloc::Global;

/// Writes the line behind the text, and ends it.
fn push_line(alloc: Global, text: &mut Vec<u8>, line: &ScenarioLine) -> Result<(), NoMemory>
    ensures { OnOk result (text.new.items ≡ text.old.items ++ (spelled_line line.now ++ 10 ∷ [])) }
{
    let mut bytes = print_line(alloc, line)?;
    text.append(&mut bytes)?;
    text.push(b'\n')?;
    Ok(())
}

/// The text of these lines.
#[tactic(auto, using(crate::proofs::Written::line_more, crate::proofs::Written::no_more))]
fn text_of(alloc: Global, lines: &[ScenarioLine]) -> Result<Vec<u8>, NoMemory>
    ensures { IfOk result (λ text. text.items ≡ text_of lines.now) }
{
    let mut text = Vec::new(alloc);
    for line in lines {
        push_line(alloc, &mut text, line)?;
    }
    Ok(text)
}

/// Writes a whole scenario: the one text that is read as it, where its lines are in their ranges and in their places.
#[tactic(auto, using(crate::proofs::Written::written_back))]
pub fn print(alloc: Global, scenario: &Scenario) -> Result<Vec<u8>, NoMemory>
    ensures text { IfOk result (λ text. text.items ≡ text_of scenario.now.lines) }
    ensures back { IfOk result (λ text. IsScenario scenario.now.lines → scenario_of text.items ≡ Ok scenario.now.lines) }
{
    text_of(alloc, scenario.lines.as_slice())
}
