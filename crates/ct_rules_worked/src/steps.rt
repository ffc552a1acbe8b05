//! Worked steps of one record. Each function shows the step that its name tells: its clause has the state before, what
//! comes, the state after and what the node does, and is accepted by computing the rule.
#![tactic(auto, unfolding(ct_rules::specs::State::rank, ct_rules::specs::State::rsn_of, ct_rules::specs::State::value_of, ct_rules::specs::State::is_mastered, ct_rules::specs::State::is_given, ct_rules::specs::State::is_for_reading, ct_rules::specs::State::with_value, ct_rules::specs::State::with_flags, ct_rules::specs::State::risen, ct_rules::specs::State::given, ct_rules::specs::State::is_quiet, ct_rules::specs::State::is_free, ct_values::specs::Client::is_read, ct_rules::specs::State::is_read_kind, ct_rules::specs::State::same_kind, ct_rules::specs::State::kind_of, ct_rules::specs::State::is_wished, ct_rules::specs::Parts::performs, ct_rules::specs::Parts::send, ct_rules::specs::Parts::send_all, ct_rules::specs::Parts::reply, ct_rules::specs::Parts::keeps, ct_rules::specs::Parts::reaches, ct_rules::specs::Parts::open_of, ct_rules::specs::Parts::opened, ct_rules::specs::Parts::end_vacuum, ct_rules::specs::Parts::applies, ct_rules::specs::Parts::satisfy, ct_rules::specs::Parts::revoke, ct_rules::specs::Parts::give, ct_rules::specs::Parts::read_here, ct_rules::specs::Parts::delegate, ct_rules::specs::Parts::grant, ct_rules::specs::Parts::yield_record, ct_rules::specs::Parts::drain, ct_rules::specs::Parts::drained, ct_rules::specs::Parts::satisfy_own, ct_rules::specs::Parts::raise, ct_rules::specs::Parts::end_revocation, ct_rules::specs::Parts::next_of, ct_rules::specs::Parts::next, ct_rules::specs::Parts::keep, ct_rules::specs::Parts::call_for, ct_rules::specs::Parts::wait_for_copies, ct_rules::specs::Parts::want_of, ct_rules::specs::Parts::opened_at_home, ct_rules::specs::Parts::want, ct_rules::specs::Messages::is_misplaced, ct_rules::specs::Messages::pass_again, ct_rules::specs::Messages::is_request, ct_rules::specs::Messages::enqueue, ct_rules::specs::Messages::on_call_of, ct_rules::specs::Messages::called, ct_rules::specs::Messages::on_call, ct_rules::specs::Messages::same_recall, ct_rules::specs::Messages::wait, ct_rules::specs::Messages::handle, ct_rules::specs::Messages::recalled, ct_rules::specs::Messages::on_recall, ct_rules::specs::Messages::hand_on, ct_rules::specs::Messages::on_give_of, ct_rules::specs::Messages::on_give, ct_rules::specs::Messages::satisfy_wish, ct_rules::specs::Messages::becomes, ct_rules::specs::Messages::accept, ct_rules::specs::Messages::refuse, ct_rules::specs::Messages::on_pass, ct_rules::specs::Messages::on_refuse_of, ct_rules::specs::Messages::on_refuse, ct_rules::specs::Messages::read_granted, ct_rules::specs::Messages::on_grant, ct_rules::specs::Messages::on_done_of, ct_rules::specs::Messages::on_done, ct_rules::specs::Messages::called_in, ct_rules::specs::Messages::acknowledge, ct_rules::specs::Messages::renew, ct_rules::specs::Messages::on_revoke_of, ct_rules::specs::Messages::on_revoke, ct_rules::specs::Messages::acknowledged, ct_rules::specs::Messages::on_revokeack, ct_rules::specs::Messages::stored_copy, ct_rules::specs::Messages::deleted_copy, ct_rules::specs::Messages::on_vstore, ct_rules::specs::Messages::on_vdelete, ct_rules::specs::Messages::greater, ct_rules::specs::Messages::finish, ct_rules::specs::Messages::on_vstored_of, ct_rules::specs::Messages::on_vstored, ct_rules::specs::Messages::on_vdeleted_of, ct_rules::specs::Messages::on_vdeleted, ct_rules::specs::Moves::store, ct_rules::specs::Moves::release, ct_rules::specs::Moves::unlock, ct_rules::specs::Moves::is_vacuumed, ct_rules::specs::Moves::phase_message, ct_rules::specs::Moves::begin_vacuum, ct_rules::specs::Moves::vacuum_at_home, ct_rules::specs::Moves::vacuum, ct_rules::specs::Moves::call_again_of, ct_rules::specs::Moves::call_again, ct_rules::specs::Moves::revoke_again_of, ct_rules::specs::Moves::revoke_again, ct_rules::specs::Moves::at_home, ct_rules::specs::Moves::from_home, ct_rules::specs::Moves::arrive))]

ghost use Rattle.std.specs.Prelude.{◌≡◌, ◌-◌, ◌^◌, ◌∷◌, None, Some, [], false};
ghost use Rattle.ct_frame.specs.Header.{nobody, plain};
ghost use Rattle.ct_frame.specs.declared.frame.CallKind.TheVariants as kind;
ghost use Rattle.ct_frame.specs.declared.frame.Msg.TheVariants as msg;
ghost use Rattle.ct_values.specs.declared.client.Answer.TheVariants as answer;
ghost use Rattle.ct_values.specs.declared.client.ClientOp.TheVariants as op;
ghost use Rattle.ct_values.specs.declared.client.Why.TheVariants as why;
ghost use Rattle.ct_rules.specs.Moves.{moved};
ghost use Rattle.ct_rules_worked.specs.Steps.{a, a_at, appending, asked, b, b_at, comes, delegating, deleted, deleting, full, gave, given_up, happens, leaves, leaves_asked, locked, made_anew, old_copy, one_read_waits, passed, passed_back, passed_on, r_at, read_only, reading, reads_wait, recalled, revoked, revoking, revoking_for_write, revoking_one, stayed, stored_copy, storing, wishing, x, y};
ghost use Rattle.ct_rules.specs.State.{a_copy, nothing_kept};
ghost use Rattle.ct_tracking.specs.Tracked.{untracked};
ghost use Rattle.ct_rules.specs.declared.event.Act.TheVariants as act;
ghost use Rattle.ct_rules.specs.declared.event.MoveEvent.TheVariants as event;

/// A call opens the record at its location master and waits there, and the node that has the record is asked for it.
pub fn call_opens_the_record()
    ensures { comes (b_at 0) 1 (msg.Call 1 b 1 kind.Lock) nothing_kept ≡ leaves (b_at 0) asked (act.Send 0 (msg.Recall 1 b 0 1 1 kind.Lock) ∷ []) }
{}

/// A call that comes again while it waits is asked for again, and does not wait twice.
pub fn repeated_call_recalls_again()
    ensures { comes (b_at 0) 1 (msg.Call 1 b 1 kind.Lock) asked ≡ leaves (b_at 0) asked (act.Send 0 (msg.Recall 1 b 0 1 1 kind.Lock) ∷ []) }
{}

/// A recall makes a free holder give the record to the location master.
pub fn recall_gives()
    ensures { comes (b_at 0) 0 (msg.Recall 1 b 0 1 1 kind.Lock) asked ≡ leaves (b_at 0) gave (act.Send 0 (msg.Give 1 b 0 []) ∷ []) }
{}

/// A recall that comes to a node which gave the record is answered by the same gift.
pub fn late_recall_gives_again()
    ensures { comes (b_at 0) 0 (msg.Recall 1 b 0 1 1 kind.Lock) gave ≡ leaves (b_at 0) gave (act.Send 0 (msg.Give 1 b 0 []) ∷ []) }
{}

/// The location master passes the gift on to the first request that waits.
pub fn gift_passes_on()
    ensures { comes (b_at 0) 0 (msg.Give 1 b 0 []) gave ≡ leaves (b_at 0) passed (act.Send 1 (msg.Pass 1 b 1 0 []) ∷ []) }
{}

/// A call whose request the record was passed for already is passed the record again.
pub fn served_call_passes_again()
    ensures { comes (b_at 0) 1 (msg.Call 1 b 1 kind.Lock) passed ≡ leaves (b_at 0) passed (act.Send 1 (msg.Pass 1 b 1 0 []) ∷ []) }
{}

/// A gift that comes again, once the record was passed on, changes nothing.
pub fn repeated_gift_changes_nothing()
    ensures { comes (b_at 0) 0 (msg.Give 1 b 0 []) passed ≡ leaves (b_at 0) passed [] }
{}

/// The node that is passed the record has it under the next RSN, and its wish has the lock.
pub fn pass_satisfies_the_wish()
    ensures { comes (b_at 1) 0 (msg.Pass 1 b 1 0 []) wishing ≡ leaves (b_at 1) locked (act.Answer 7 (answer.Locked []) ∷ []) }
{}

/// A pass that comes again does nothing.
pub fn repeated_pass_does_nothing()
    ensures { comes (b_at 1) 0 (msg.Pass 1 b 1 0 []) locked ≡ leaves (b_at 1) locked [] }
{}

/// A recall that comes before the record waits for it.
pub fn early_recall_waits()
    ensures { comes (b_at 1) 0 (msg.Recall 1 b 1 0 2 kind.Lock) wishing ≡ leaves (b_at 1) (record wishing { waiting = record { least = 1; node = 0; request = 2; kind = kind.Lock } ∷ [] }) [] }
{}

/// At the end of the lock the recall that waited for it is served.
pub fn unlock_serves_the_recall()
    ensures { happens (b_at 1) (event.Unlock 7) (record locked { waiting = record { least = 1; node = 0; request = 2; kind = kind.Lock } ∷ [] }) ≡ leaves (b_at 1) (record nothing_kept { copy = Some (a_copy 1 nobody plain []) }) (act.Answer 7 answer.Unlocked ∷ act.Send 0 (msg.Give 1 b 1 []) ∷ []) }
{}

/// A record that nobody wishes for any more is refused.
pub fn unwished_pass_is_refused()
    ensures { comes (a_at 0 0) 1 (msg.Pass 1 a 1 2 x) given_up ≡ leaves (a_at 0 0) given_up (act.Send 1 (msg.Refuse 1 a 1 2) ∷ []) }
{}

/// The location master keeps a refused record under the next RSN but one.
pub fn refused_record_stays()
    ensures { comes (a_at 1 0) 0 (msg.Refuse 1 a 1 2) passed_back ≡ leaves (a_at 1 0) stayed [] }
{}

/// A refusal of another request than the one that the record was passed for changes nothing.
pub fn refuse_of_another_request_changes_nothing()
    ensures { comes (a_at 1 0) 0 (msg.Refuse 1 a 2 2) passed_back ≡ leaves (a_at 1 0) passed_back [] }
{}

/// A record that is passed for another request than the one that waits is refused, and the wish stays.
pub fn pass_of_another_request_is_refused()
    ensures { comes (b_at 1) 0 (msg.Pass 1 b 2 0 []) wishing ≡ leaves (b_at 1) wishing (act.Send 0 (msg.Refuse 1 b 2 0) ∷ []) }
{}

/// A gift that no request waits for stays at the location master under the next RSN.
pub fn unasked_gift_is_kept()
    ensures { comes (a_at 1 0) 0 (msg.Give 1 a 1 []) passed_on ≡ leaves (a_at 1 0) deleted [] }
{}

/// So does one that a read waits for, and the location master asks itself for the copy.
pub fn gift_before_a_read_is_kept()
    ensures { comes (r_at 1) 0 (msg.Give 1 a 1 []) (record passed_on { queue = record { node = 2; request = 5; kind = kind.Read } ∷ [] }) ≡ leaves (r_at 1) (record deleted { queue = record { node = 2; request = 5; kind = kind.Read } ∷ [] }) (act.Send 1 (msg.Recall 1 a 2 2 5 kind.Read) ∷ []) }
{}

/// What is not answered is called for again, under the same number.
pub fn resend_calls_again()
    ensures { happens (b_at 1) event.Resend wishing ≡ leaves (b_at 1) wishing (act.Send 0 (msg.Call 1 b 1 kind.Lock) ∷ []) }
{}

/// Once a read is served the next request that waits is asked for.
pub fn served_read_asks_for_the_next()
    ensures { comes (r_at 1) 1 (msg.Done 1 a 0 1) reads_wait ≡ leaves (r_at 1) one_read_waits (act.Send 1 (msg.Recall 1 a 0 2 1 kind.Read) ∷ []) }
{}

/// A revocation asks those again that have not acknowledged it.
pub fn resend_revokes_again()
    ensures { happens (r_at 1) event.Resend revoking_one ≡ leaves (r_at 1) revoking_one (act.Send 2 (msg.Revoke 1 a 0) ∷ []) }
{}

/// A recall for reading hands out a copy, and the location master learns that the request was served.
pub fn read_is_delegated()
    ensures { comes (r_at 1) 1 (msg.Recall 1 a 0 2 1 kind.Read) (record delegating { tracking = record { tracked = 0 ∷ []; revoking = None } }) ≡ leaves (r_at 1) delegating (act.Send 2 (msg.Grant 1 a 1 0 x) ∷ act.Send 1 (msg.Done 1 a 2 1) ∷ []) }
{}

/// A granted copy answers the read that wished for it.
pub fn grant_answers_the_read()
    ensures { comes (r_at 0) 1 (msg.Grant 1 a 1 0 x) (reading 1) ≡ leaves (r_at 0) read_only (act.Answer 5 (answer.Read x) ∷ []) }
{}

/// A lock at a holder that handed out copies waits, and these are called in.
pub fn lock_revokes_the_copies()
    ensures { happens (r_at 1) (event.Want 6 (op.Lock 1 a)) delegating ≡ leaves (r_at 1) revoking (act.Send 0 (msg.Revoke 1 a 0) ∷ act.Send 2 (msg.Revoke 1 a 0) ∷ []) }
{}

/// So does a write, which is made beside no copy for reading.
pub fn write_revokes_the_copies()
    ensures { happens (r_at 1) (event.Want 6 (op.Write 1 a y)) delegating ≡ leaves (r_at 1) (record revoking { wish = Some (record { call = 6; request = 0; op = op.Write 1 a y }) }) (act.Send 0 (msg.Revoke 1 a 0) ∷ act.Send 2 (msg.Revoke 1 a 0) ∷ []) }
{}

/// So does a recall for the lock, which waits until all have acknowledged.
pub fn recall_revokes_the_copies()
    ensures { comes (r_at 1) 1 (msg.Recall 1 a 0 2 4 kind.Lock) delegating ≡ leaves (r_at 1) recalled (act.Send 0 (msg.Revoke 1 a 0) ∷ act.Send 2 (msg.Revoke 1 a 0) ∷ []) }
{}

/// An acknowledgement that others are missing to changes the missing nodes alone.
pub fn first_acknowledgement_waits_on()
    ensures { comes (r_at 1) 0 (msg.RevokeAck 1 a 0) revoking ≡ leaves (r_at 1) revoking_one [] }
{}

/// The last acknowledgement ends the revocation under the next RSN, and the wish has the lock.
pub fn last_acknowledgement_satisfies_the_wish()
    ensures { comes (r_at 1) 2 (msg.RevokeAck 1 a 0) revoking_one ≡ leaves (r_at 1) revoked (act.Answer 6 (answer.Locked x) ∷ []) }
{}

/// After the wish the recall that waited is served.
pub fn last_acknowledgement_drains()
    ensures { comes (r_at 1) 2 (msg.RevokeAck 1 a 0) revoking_for_write ≡ leaves (r_at 1) (record delegating { copy = Some (a_copy 1 nobody plain y); tracking = untracked }) (act.Answer 6 answer.Written ∷ act.Send 1 (msg.Give 1 a 1 y) ∷ []) }
{}

/// A node that is told of a revocation while its read is on the way calls for it again, under a new number.
pub fn revoked_read_is_called_for_again()
    ensures { comes (r_at 0) 1 (msg.Revoke 1 a 0) (reading 1) ≡ leaves_asked (r_at 0) (reading 3) (act.Send 1 (msg.RevokeAck 1 a 0) ∷ act.Send 1 (msg.Call 1 a 3 kind.Read) ∷ []) }
{}

/// So a grant under the old number, which comes after the revocation, is ignored.
pub fn late_grant_is_ignored()
    ensures { comes (r_at 0) 1 (msg.Grant 1 a 1 0 x) (reading 3) ≡ leaves (r_at 0) (reading 3) [] }
{}

/// A copy for reading is one no more once it is called in.
pub fn revoke_ends_a_copy()
    ensures { comes (r_at 0) 1 (msg.Revoke 1 a 0) read_only ≡ leaves (r_at 0) (record nothing_kept { copy = Some (a_copy 0 1 plain x) }) (act.Send 1 (msg.RevokeAck 1 a 0) ∷ []) }
{}

/// A vacuum begins at the location master, which asks all others to store the deleted record.
pub fn vacuum_begins()
    ensures { happens (a_at 1 0) (event.Vacuum (0 ∷ 2 ∷ [])) deleted ≡ leaves (a_at 1 0) (storing (0 ∷ 2 ∷ [])) (act.Send 0 (msg.VStore 1 a 2) ∷ act.Send 2 (msg.VStore 1 a 2) ∷ []) }
{}

/// A vacuum that runs asks those again that are missing.
pub fn vacuum_again_asks_the_missing()
    ensures { happens (a_at 1 0) (event.Vacuum (0 ∷ 2 ∷ [])) (storing (2 ∷ [])) ≡ leaves (a_at 1 0) (storing (2 ∷ [])) (act.Send 2 (msg.VStore 1 a 2) ∷ []) }
{}

/// A vacuum at another node gives the deleted record to its location master.
pub fn vacuum_elsewhere_gives()
    ensures { happens (a_at 0 0) (event.Vacuum (1 ∷ 2 ∷ [])) (record nothing_kept { copy = Some (a_copy 1 0 plain []) }) ≡ leaves (a_at 0 0) old_copy (act.Send 1 (msg.Give 1 a 1 []) ∷ []) }
{}

/// An old copy becomes the deleted record, and the location master learns of it.
pub fn vstore_deletes_an_old_copy()
    ensures { comes (a_at 0 0) 1 (msg.VStore 1 a 2) old_copy ≡ leaves (a_at 0 0) stored_copy (act.Send 1 (msg.VStored 1 a 2) ∷ []) }
{}

/// Once all have stored the deleted record they are asked to remove it.
pub fn last_vstored_starts_deleting()
    ensures { comes (a_at 1 0) 2 (msg.VStored 1 a 2) (storing (2 ∷ [])) ≡ leaves (a_at 1 0) (deleting (0 ∷ 2 ∷ [])) (act.Send 0 (msg.VDelete 1 a 2) ∷ act.Send 2 (msg.VDelete 1 a 2) ∷ []) }
{}

/// The deleted record is removed, and the location master learns of it.
pub fn vdelete_removes_the_copy()
    ensures { comes (a_at 0 0) 1 (msg.VDelete 1 a 2) stored_copy ≡ leaves (a_at 0 0) nothing_kept (act.Send 1 (msg.VDeleted 1 a 2) ∷ []) }
{}

/// Once all have removed it nothing is left of the record, and the floor is above all its RSNs.
pub fn last_vdeleted_finishes()
    ensures { comes (a_at 1 0) 2 (msg.VDeleted 1 a 2) (deleting (2 ∷ [])) ≡ Some (record { state = nothing_kept; next = 3; floor = 4; acts = act.Finished 4 ∷ []; spent = false }) }
{}

/// A record that is made anew after a vacuum has the RSN of the floor.
pub fn made_anew_above_the_floor()
    ensures { happens (a_at 1 4) (event.Want 5 (op.Lock 1 a)) nothing_kept ≡ leaves (a_at 1 4) made_anew (act.Answer 5 (answer.Locked []) ∷ []) }
{}

/// A gift from before a vacuum finds no entry.
pub fn gift_after_a_vacuum_finds_no_entry()
    ensures { comes (a_at 1 4) 0 (msg.Give 1 a 1 []) nothing_kept ≡ leaves (a_at 1 4) nothing_kept [] }
{}

/// Nor does it change the record that was made anew.
pub fn gift_after_a_vacuum_changes_nothing()
    ensures { comes (a_at 1 4) 0 (msg.Give 1 a 1 []) made_anew ≡ leaves (a_at 1 4) made_anew [] }
{}

/// A function whose answer is longer than 1,024 bytes is refused, and the value stays.
pub fn apply_too_long()
    ensures { moved (a_at 1 0) appending (event.Want 8 (op.Apply 1 a 1 x)) full 3 ≡ leaves (a_at 1 0) full (act.Answer 8 (answer.Refused (why.TooLong 1025)) ∷ []) }
{}

/// The greatest request number is 2^62 - 2, so that the next one stays below 2^62.
pub fn last_request_number()
    ensures { moved (b_at 1) [] (event.Want 7 (op.Lock 1 b)) nothing_kept (2 ^ 62 - 2) ≡ Some (record { state = record nothing_kept { wish = Some (record { call = 7; request = 2 ^ 62 - 2; op = op.Lock 1 b }) }; next = 2 ^ 62 - 1; floor = 0; acts = act.Send 0 (msg.Call 1 b (2 ^ 62 - 2) kind.Lock) ∷ []; spent = false }) }
{}

/// A step that would make the next request number 2^62 is none.
pub fn request_numbers_end()
    ensures { moved (b_at 1) [] (event.Want 7 (op.Lock 1 b)) nothing_kept (2 ^ 62 - 1) ≡ None }
{}

/// A step that would make an RSN 2^62 is none.
pub fn rsns_end()
    ensures { comes (b_at 1) 0 (msg.Pass 1 b 1 (2 ^ 62 - 1) []) wishing ≡ None }
{}
