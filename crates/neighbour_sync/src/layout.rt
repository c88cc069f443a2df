// Where the words lie: each at the head of a line of the processor's cache, so that a thread that stores one does not
// take the line away from a thread that uses another.
ghost use Rattle.std.specs.Prelude.{◌≡◌};
ghost use Rattle.neighbour_sync.specs.Layout.{clock_at, sent_at, want_at, halt_at, word_count};

// The words of a line, 64 bytes.
const LINE: usize = 8;

// The clock of a node.
pub(crate) fn clock_word(node: u8) -> usize
    ensures { result ≡ clock_at node }
{
    LINE * usize::from(node)
}

// How many sends of a node are posted.
pub(crate) fn sent_word(nodes: u8, node: u8) -> usize
    ensures { result ≡ sent_at nodes node }
{
    LINE * (usize::from(nodes) + usize::from(node))
}

// The least cycle that somebody who sleeps wants the clock of a node to pass.
pub(crate) fn want_word(nodes: u8, node: u8) -> usize
    ensures { result ≡ want_at nodes node }
{
    LINE * (usize::from(nodes) + usize::from(nodes) + usize::from(node))
}

// Whether a node has halted all of them.
pub(crate) fn halt_word(nodes: u8) -> usize
    ensures { result ≡ halt_at nodes }
{
    LINE * (usize::from(nodes) + usize::from(nodes) + usize::from(nodes))
}

// How many words there are, used or not.
pub(crate) fn count_words(nodes: u8) -> usize
    ensures { result ≡ word_count nodes }
{
    LINE * (usize::from(nodes) + usize::from(nodes) + usize::from(nodes) + 1)
}
