//! How near addresses are to each other.
ghost use Rattle.std.specs.Prelude.{◌≡◌, ◌≤◌, ◌<◌, ◌^◌, ℕ, length, zero};
ghost use Rattle.ct_values.specs.declared.address.Address.TheVariants.{V4, V6};
ghost use Rattle.ct_lcp2.specs.Distance.{agreed, distance, imbalance, sum_to, IsAgreed};

use ct_values::address::Address;

/// How many of their first 32 bits two numbers have in common.
fn agreed_of_32(a: u32, b: u32) -> u32
    ensures exact { result ≡ agreed 32 a b }
    ensures in_range { result ≤ 32 }
{
    (a ^ b).leading_zeros()
}

/// How many of their first 128 bits two numbers have in common.
fn agreed_of_128(a: u128, b: u128) -> u32
    ensures exact { result ≡ agreed 128 a b }
    ensures in_range { result ≤ 128 }
{
    (a ^ b).leading_zeros()
}

/// The length of the common prefix: up to 32 between IPv4 addresses, up to 128 between IPv6 addresses, and 0 across
/// the families. It takes no memory.
pub fn distance(a: Address, b: Address) -> u32
    ensures exact { result ≡ distance a b }
    ensures in_range { result ≤ 128 }
{
    match (a, b) {
        (Address::V4(a), Address::V4(b)) => agreed_of_32(a, b),
        (Address::V6(a), Address::V6(b)) => agreed_of_128(a, b),
        (Address::V4(_), Address::V6(_)) => 0,
        (Address::V6(_), Address::V4(_)) => 0,
    }
}

/// The sum of squared distances of an address to others.
#[tactic(auto, unfolding(crate::specs::Distance::sum_to), using(crate::proofs::Distances::sum_within))]
pub fn sum_to(address: Address, others: &[Address]) -> u64
    requires { length others.now ≤ 256 }
    ensures { result ≡ sum_to address others.now }
{
    let mut sum = 0;
    for other in others {
        let d = u64::from(distance(address, *other));
        sum += d * d;
    }
    sum
}

/// The sum of squared distances over the unordered pairs of at most 256 addresses. It takes no memory.
#[tactic(auto, unfolding(crate::specs::Distance::imbalance), using(crate::proofs::Distances::imbalance_within))]
pub fn imbalance(addresses: &[Address]) -> u64
    requires { length addresses.now ≤ 256 }
    ensures { result ≡ imbalance addresses.now }
{
    let mut sum = 0;
    let mut rest = addresses;
    while let Some((first, others)) = rest.split_first() {
        sum += sum_to(*first, others);
        rest = others;
    }
    sum
}
