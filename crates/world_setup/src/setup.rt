//! How large a run is.
ghost use Rattle.std.specs.Prelude.{◌≡◌, ◌↔◌, IsSome, IfSome};
ghost use Rattle.world_setup.specs.Limits.{IsWithinLimits};

use block_types::{MAX_NODE, MAX_TARGET, MIN_TARGET};
use memtable::MAX_BATCH;

/// The fewest nodes, so that an extent has three places.
const MIN_NODES: u64 = 3;

/// The most servers. The fewest is 1.
const MAX_SERVERS: u64 = 4;

/// How many actors a run has, and how large an extent and a group of the log may grow.
#[derive(Clone, Copy)]
pub struct Setup {
    pub nodes: u8,
    pub servers: u8,
    pub target: u32,
    pub batch: u16,
    ghost within_limits: { IsWithinLimits nodes servers target batch },
}

impl Setup {
    /// Tests numbers that come from outside.
    pub fn new(nodes: u64, servers: u64, target: u64, batch: u64) -> Option<Self>
        ensures valid { IsSome result ↔ IsWithinLimits nodes servers target batch }
        ensures nodes { IfSome result (λ setup. setup.nodes ≡ nodes) }
        ensures servers { IfSome result (λ setup. setup.servers ≡ servers) }
        ensures target { IfSome result (λ setup. setup.target ≡ target) }
        ensures batch { IfSome result (λ setup. setup.batch ≡ batch) }
    {
        if (MIN_NODES..=u64::from(MAX_NODE)).contains(&nodes)
            && (1..=MAX_SERVERS).contains(&servers)
            && (u64::from(MIN_TARGET)..=u64::from(MAX_TARGET)).contains(&target)
            && (1..=MAX_BATCH as u64).contains(&batch)
        {
            Some(Setup {
                nodes: nodes as u8,
                servers: servers as u8,
                target: target as u32,
                batch: batch as u16,
            })
        } else {
            None
        }
    }
}
