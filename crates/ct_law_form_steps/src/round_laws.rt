//! Each step of a round leaves a node in form, and what the node does then is sound.
ghost use Rattle.ct_law_form_steps.specs.RoundLaws.{BeginsKeepForm, RoundsKeepForm};

/// The begin of a round, where its generation is below 2^62.
pub fn begins_keep_form()
    ensures { BeginsKeepForm }
{}

/// Every message of a round but the Thaw that keeps the rules of its fields; of a Push, where no number reaches 2^62.
pub fn rounds_keep_form()
    ensures { RoundsKeepForm }
{}
