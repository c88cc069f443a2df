// What ties an air under a lock to the words beside it and to the seats of the nodes.
use std::marker::Brand;

/// Names one table of clock words, one world, and the floor up to which the record is cut: what all that share an air
/// agree on, while they share it. Code that shares an air is generic over its session. Whoever makes the `Shared` calls
/// such code with std's marker `Brand`, in a function of its own whose parameters are the plain parts, and that call
/// picks the meanings from them.
pub trait Session {
    ghost use Rattle.std.specs.Prelude.{ℕ};
    ghost use Rattle.atomic_table.specs.Seated.{TableId};
    ghost use Rattle.world_core.specs.declared.world.WorldFacts.{WorldFacts};

    ghost table: { TableId };

    ghost world: { WorldFacts };

    ghost floor: { ℕ };
}

impl Session for Brand {
    ghost use Rattle.neighbour_sync.specs.NoSession.{no_table, no_world};

    ghost table = { no_table };

    ghost world = { no_world };

    ghost floor = { 0 };
}
