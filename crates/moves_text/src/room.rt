// What is left to the next stretch of a line.
ghost use Rattle.std.specs.Prelude.{◌≡◌, ◌≤◌};
ghost use Rattle.air_base.specs.Bounds.{LAST_CYCLE};
ghost use Rattle.moves_text.specs.Moves.{left_behind};
ghost use Rattle.serial_ports.specs.declared.stretch.TheConstants.{LONGEST_EVERY, MOST_ARRIVALS};

/// The first cycle in which a stretch may begin, and how many bytes it may have.
#[derive(Clone, Copy)]
pub struct Room {
    pub from: u64,
    pub bytes: usize,
}

impl Room {
    /// What is left behind a stretch of so many bytes, at least one, in room for it.
    #[tactic(auto, unfolding(crate::specs::Moves::left_behind))]
    pub fn behind(self, at: u64, every: u64, count: usize) -> Room
        requires at { at ≤ LAST_CYCLE }
        requires every { every ≤ LONGEST_EVERY }
        requires some { 1 ≤ count }
        requires few { count ≤ MOST_ARRIVALS }
        requires within { count ≤ self.bytes }
        ensures exact { result ≡ left_behind self at every count }
        ensures fewer { result.bytes ≤ self.bytes }
    {
        Room {
            from: at + (count as u64 - 1) * every + 1,
            bytes: self.bytes - count,
        }
    }
}
