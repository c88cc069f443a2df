// Many cycles of a node at once: so many cycles of the definition (`Cycle`), and nothing else. A node that waits or
// sleeps passes them in one step (`rests`); one that executes does whole instructions up to the next event of its
// devices (`stride`), with nothing between two of them where none is told and no line is up (`sprint`), and rounds of a
// loop that waits or counts down all together (`leaps`, `countdowns`). A cycle in which a device ends something is
// never one of them: `conclude` of `machine` does it.

mod countdowns;
mod leaps;
mod rests;
mod sprint;
mod stride;
