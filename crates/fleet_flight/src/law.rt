// What holds of what is seen at places.
ghost use Rattle.std.specs.Prelude.{◌≡◌, ℕ, ◌+◌, ◌-◌, ◌<◌, ◌≤◌, ◌++◌, List};
ghost use Rattle.std.specs.List.{Contains};
ghost use Rattle.node_core.specs.State.{NodeState};
ghost use Rattle.node_core.specs.declared.row.Row.{Row};
ghost use Rattle.node_places.specs.declared.Place.{Place};
ghost use Rattle.node_places.specs.declared.Spot.TheVariants.{Byte};
ghost use Rattle.world_core.specs.Order.{Fleet, node_at};
ghost use Rattle.fleet_flight.specs.Watched.{Group, byte_at, groups_in, put_in, watched};

/// What is seen in one span and then in the next is what is seen in both.
pub fn joined_law()
    ensures { (f : Fleet NodeState Row) (gs : List Group) (a b c : ℕ) → a ≤ b → b ≤ c → watched f gs a b ++ watched f gs b c ≡ watched f gs a c }
{}

/// A byte that is watched is, as a span ends, what it was as the span began, with the changes seen in it put in.
pub fn changes_law()
    ensures { (f : Fleet NodeState Row) (n : ℕ) (ps : List Place) (k at a b : ℕ) → k < n → a ≤ b → Contains ps (record { node = k; spot = Byte at })
        → put_in k at (watched f (groups_in n ps) a b) (byte_at at (node_at f k a)) ≡ byte_at at (node_at f k b) }
{}
