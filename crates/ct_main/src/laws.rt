//! What follows for every run of the top call.
ghost use Rattle.ct_main.specs.Complete.{PlayCompletes};
ghost use Rattle.ct_main.specs.Statuses as statuses;

/// A good input, whose last line is ended and of which no line is refused, is played to its end where neither a read nor a
/// write fails and memory suffices.
pub fn a_good_input_is_played()
    ensures { PlayCompletes }
{}

/// `play` ends with 0 only where its input was played to its end and err gained nothing. Where neither a read nor a write fails, it ends with 0
/// for a good input and with 2 for any other that is short enough, unless memory runs out.
pub fn a_play_tells_its_end()
    ensures { statuses.PlayIsTold }
{}

/// `lcp2` ends with 0 only where its input was read to its end, its placement printed, and err gained nothing. Where neither a read nor a write
/// fails, it ends with 0 for a good input and with 2 for any other, unless memory runs out.
pub fn a_placement_tells_its_end()
    ensures { statuses.PlacementIsTold }
{}

/// `soak` ends with 0 only where the line that counts its steps was printed, and err gained nothing. Where no write fails, it ends with 0,
/// unless memory runs out.
#[tactic(auto, using(crate::proofs::Statuses::soak_told))]
pub fn a_soak_tells_its_end()
    ensures { statuses.SoakIsTold }
{}

/// `cluster` and `loopback` end with 0 only where the text of a schedule of the plan's journals was printed, and err gained nothing. Where neither
/// the troupe nor a write fails, they end with 0, unless memory runs out.
#[tactic(auto, using(crate::proofs::Statuses::cluster_told))]
pub fn a_cluster_tells_its_end()
    ensures { statuses.ClusterIsTold }
{}

/// So do `chains`, of the texts of their columns.
#[tactic(auto, using(crate::proofs::Statuses::chains_told))]
pub fn chains_tell_their_end()
    ensures { statuses.ChainsAreTold }
{}

/// `bus` ends with 0 only where the text of an exchange that was counted was printed, and err gained nothing. Where no write fails, it ends with
/// 0, unless memory runs out.
#[tactic(auto, using(crate::proofs::Statuses::bus_told))]
pub fn a_bus_tells_its_end()
    ensures { statuses.BusIsTold }
{}
