//! How large a storm is.
ghost use Rattle.stampctl_settings.specs.Counts.{IsCount};

use world_setup::Setup;

/// The most clients, workers, requests of a client, and events of a storm. The fewest is 1.
pub const MAX_COUNT: u32 = 1_000_000;

/// How large a storm is. Each of the four counts is from 1 to 1,000,000, always.
#[derive(Clone, Copy)]
pub struct Config {
    /// How large the stamp is.
    pub setup: Setup,
    /// How many threads submit requests.
    pub clients: u32,
    /// How many threads deliver packets.
    pub workers: u32,
    /// How many requests each client submits.
    pub requests: u32,
    /// How many events there is room for.
    pub events: u32,
    ghost clients_in_range: { IsCount clients },
    ghost workers_in_range: { IsCount workers },
    ghost requests_in_range: { IsCount requests },
    ghost events_in_range: { IsCount events },
}
