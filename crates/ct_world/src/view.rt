//! What a command at a node may read.
ghost use Rattle.std.specs.Prelude.{◌≡◌, false, true, IfSome, MatchOption};
ghost use Rattle.ct_rules_cluster.specs.Cluster.{is_up};
ghost use Rattle.ct_law_form.specs.Whole.{HasLimits};
ghost use Rattle.ct_world.specs.View.{core_at};

use crate::world::World;
use ct_core::view::View;

impl World {
    /// What a command at a node may read: there is nothing exactly where the node is down or not there. It takes no memory.
    pub fn view(&self, node: u32) -> Option<View>
        ensures core { MatchOption result (is_up node self.now.cluster ≡ false) (λ v. (is_up node self.now.cluster ≡ true) × (v.core.now ≡ core_at node self.now)) }
        ensures limits { IfSome result (λ v. HasLimits v.core.now.config) }
        ensures running { IfSome result (λ v. v.running.now ≡ self.now.cluster.running) }
        ensures able { IfSome result (λ v. v.able.now ≡ self.now.cluster.able) }
    {
        if !self.is_up(node) {
            return None;
        }
        let core = self.parts.cores.as_slice().get(node as usize)?;
        Some(View {
            core,
            running: self.parts.running.as_slice(),
            able: self.parts.able.as_slice(),
        })
    }
}
