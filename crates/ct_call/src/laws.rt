//! What follows for the rules of every table.
ghost use Rattle.ct_call.specs.Laws.{HasNewRule, KeepsRules};

/// A function that was added has the rule that it was added with.
pub fn has_new_rule()
    ensures { HasNewRule }
{}

/// Whatever is added, a function that is there keeps its rule.
pub fn keeps_rules()
    ensures { KeepsRules }
{}
