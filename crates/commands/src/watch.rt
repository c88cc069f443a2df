// What is watched of a network.
use node_places::Place;

/// What of a run is watched: these places, in the cycles from `from` on and below `to`.
#[derive(Drop)]
pub struct Watch {
    pub from: u64,
    pub to: u64,
    pub places: Vec<Place>,
}

/// What is written of each run of a sweep.
#[derive(Drop)]
pub enum Tail {
    /// Its trace.
    Trace,
    /// What is seen at these places.
    Watch(Watch),
}
