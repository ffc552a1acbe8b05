//! Where no number reaches 2^62, each of these leaves a node in form, and what the node does then is sound.
ghost use Rattle.ct_law_form.specs.Laws.{ClientsKeepForm, CommitMessagesKeepForm, RecordMessagesKeepForm, RetriesKeepForm, ThawsKeepForm, VacuumsKeepForm};

/// A client's call that is allowed.
pub fn clients_keep_form()
    ensures { ClientsKeepForm }
{}

/// A message of a record that keeps the rules of its fields.
pub fn record_messages_keep_form()
    ensures { RecordMessagesKeepForm }
{}

/// A message of a commit that does.
pub fn commit_messages_keep_form()
    ensures { CommitMessagesKeepForm }
{}

/// The vacuum of a database.
pub fn vacuums_keep_form()
    ensures { VacuumsKeepForm }
{}

/// A Thaw, with all calls that want their records anew.
pub fn thaws_keep_form()
    ensures { ThawsKeepForm }
{}

/// What a retry sends again of records and of commits.
pub fn retries_keep_form()
    ensures { RetriesKeepForm }
{}
