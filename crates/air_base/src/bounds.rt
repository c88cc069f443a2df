// How many nodes there are at most, how far clocks go, how long a byte is on its way and on the air.

/// The most nodes of a network.
pub const MOST_NODES: u8 = 64;

/// No run goes beyond this cycle.
pub const LAST_CYCLE: u64 = 1 << 40;

/// No run of a network without spans goes beyond this cycle, and no run of a node by itself.
pub const LAST_SHORT_CYCLE: u64 = 10_000_000;

/// Nothing that begins in a run ends after this cycle.
pub const LAST_END: u64 = 1 << 41;

/// The shortest time that a byte can take on the air, in cycles.
pub const SHORTEST_BYTE: u64 = 256;

/// The longest.
pub const LONGEST_BYTE: u64 = 4_096;

/// The longest time from a send to the first cycle that hears it, in cycles.
pub const LONGEST_LATENCY: u64 = 65_535;
