//! What a member does in its phase.
ghost use Rattle.std.specs.Prelude.{◌≡◌, ◌&&◌, nat_eq};
ghost use Rattle.ct_rules_node.specs.Node.{is_freezing, is_present, is_serving};
ghost use Rattle.ct_node_state.specs.Phases.{tells_freezing, tells_present, tells_serving};

use ct_frame::round::Phase;
use ct_lead::member::Member;

fn tells_serving(phase: Phase) -> bool
    ensures { result ≡ tells_serving phase }
{
    match phase {
        Phase::Serving(_) => true,
        Phase::Idle | Phase::Freezing(_) | Phase::Frozen(_) | Phase::Installed(_) => false,
    }
}

fn tells_freezing(phase: Phase) -> bool
    ensures { result ≡ tells_freezing phase }
{
    match phase {
        Phase::Freezing(_) => true,
        Phase::Idle | Phase::Serving(_) | Phase::Frozen(_) | Phase::Installed(_) => false,
    }
}

fn tells_present(generation: u64, phase: Phase) -> bool
    ensures { result ≡ tells_present generation phase }
{
    match phase {
        Phase::Serving(g) | Phase::Installed(g) => g == generation,
        Phase::Idle | Phase::Freezing(_) | Phase::Frozen(_) => false,
    }
}

/// Does it serve clients?
#[tactic(auto, using(crate::proofs::Telling::serving_told))]
pub fn is_serving(member: Member) -> bool
    ensures { result ≡ is_serving member.phase }
{
    tells_serving(member.phase())
}

/// Does it wait for its locks to end?
#[tactic(auto, using(crate::proofs::Telling::freezing_told))]
pub fn is_freezing(member: Member) -> bool
    ensures { result ≡ is_freezing member.phase }
{
    tells_freezing(member.phase())
}

/// Is it present in this generation, serving in it or with it installed?
#[tactic(auto, using(crate::proofs::Telling::present_told))]
pub fn is_present_in(member: Member, generation: u64) -> bool
    ensures { result ≡ (is_present member.phase && nat_eq member.generation generation) }
{
    tells_present(generation, member.phase())
}
