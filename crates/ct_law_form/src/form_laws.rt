//! What a node keeps of its records stays in form, and a node in form is there at the opening and after a stop.
ghost use Rattle.ct_law_form.specs.Form.{MovesKeepForm, NothingMoves};
ghost use Rattle.ct_law_form.specs.Whole.{ConfigsHaveLimits, OpensInForm, RestartsInForm};

/// A step at one record, where no number reaches 2^62, leaves what the node keeps of every record in form.
pub fn moves_keep_form()
    ensures { MovesKeepForm }
{}

/// A part of the rules of one record that leaves its state and the node's numbers as they are leaves the node so.
pub fn nothing_moves()
    ensures { NothingMoves }
{}

/// What databases and addresses make is a configuration of at most 16 nodes and 16 databases, whose addresses ascend.
pub fn configs_have_limits()
    ensures { ConfigsHaveLimits }
{}

/// A node is in form at the opening, over members that ascend and are nodes of the configuration.
pub fn opens_in_form()
    ensures { OpensInForm }
{}

/// A stop leaves a node in form.
pub fn restarts_in_form()
    ensures { RestartsInForm }
{}
