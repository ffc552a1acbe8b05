//! The nodes that a cluster opens with.
ghost use Rattle.std.specs.Prelude.{◌≡◌, IfOk};
ghost use Rattle.ct_rules_cluster.specs.Cluster.{everyone};

use ct_values::config::Config;
use ct_values::memory::NoMemory;
use std::alloc::Global;

/// All nodes of a configuration.
#[tactic(auto, using(crate::proofs::Everyone::numbers_more), unfolding(ct_rules_cluster::specs::Cluster::everyone, ct_rules_cluster::specs::Cluster::numbers))]
pub(crate) fn everyone(alloc: Global, config: &Config) -> Result<Vec<u32>, NoMemory>
    ensures { IfOk result (λ v. v.items ≡ everyone config.now) }
{
    let mut all = Vec::new(alloc);
    for node in 0..config.nodes {
        all.push(node)?;
    }
    Ok(all)
}
