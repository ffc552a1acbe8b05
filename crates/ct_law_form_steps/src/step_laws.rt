//! The law by which a node in code keeps its invariant by its type.
ghost use Rattle.ct_law_form_steps.specs.StepLaws.{EveryoneOpensInForm, HappensInForm, StepsKeepForm};

/// Whatever may come leaves the middle of a step in form, where no number reaches 2^62.
pub fn happens_in_form()
    ensures { HappensInForm }
{}

/// A step of whatever may come leaves a node in form, and every frame that it sends keeps the rules of its fields, is the
/// node's own, and goes to a node of the configuration.
pub fn steps_keep_form()
    ensures { StepsKeepForm }
{}

/// Every node of a configuration is in form at the opening.
pub fn everyone_opens_in_form()
    ensures { EveryoneOpensInForm }
{}
