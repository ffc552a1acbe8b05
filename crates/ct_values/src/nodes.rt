//! Lists of nodes.
ghost use Rattle.std.specs.Prelude.{◌≡◌, nat_eq};
ghost use Rattle.std.specs.List.{list_any};

/// Is the node in the list?
pub fn is_among(nodes: &[u32], node: u32) -> bool
    ensures { result ≡ list_any (nat_eq node) nodes.now }
{
    nodes.iter().any(|n| node == *n)
}
