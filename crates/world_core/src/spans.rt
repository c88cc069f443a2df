// When a link is open: a search among the spans of all links, which stand in order.
ghost use Rattle.std.specs.Prelude.{◌≡◌, ◌↔◌, ℕ, ◌+◌, ◌-◌, nat_lt, ◌<◌, ◌≤◌, true, false, length, slice_index_or, IsTrue};
ghost use Rattle.air_base.specs.declared.bounds.TheConstants.{LONGEST_BYTE, LONGEST_LATENCY};
ghost use Rattle.std.specs.List.{All, AllPairs};
ghost use Rattle.std.specs.List.Sorted.{IsPartitionPoint};
ghost use Rattle.world_core.specs.Topology.{IsSpan, IsSpanOrder, is_open_in, is_reached_in};
ghost use Rattle.world_core.specs.SpanSearch.{begins_by, IsLastBegun};

/// The most spans of all links together.
pub const MOST_SPANS: usize = 4_096;

/// A span of cycles in which a link is open.
#[derive(Clone, Copy)]
pub struct Span {
    /// The place of the link in the list of links.
    pub link: u32,
    /// The first cycle.
    pub from: u64,
    /// The cycle after the last.
    pub until: u64,
}

/// Which span of a link has begun last by a cycle.
#[derive(Clone, Copy)]
pub enum LastSpan {
    /// The link has no spans, and is always open.
    Always,
    /// It has spans, and none has begun.
    NotYet,
    /// The last ends before this cycle.
    Until {
        /// The cycle after its last.
        until: u64,
    },
}

// How many spans come before the link at this place, or are its spans and have begun by the cycle.
fn count_begun(spans: &[Span], place: u64, cycle: u64) -> usize
    requires apart { AllPairs IsSpanOrder spans.now }
    requires spans { All (λ x. x.from < x.until) spans.now }
    ensures bound { result ≤ length spans.now }
    ensures point { IsPartitionPoint (λ y. begins_by place cycle y ≡ true) (λ y. begins_by place cycle y ≡ false) spans.now result }
{
    spans.partition_point(
        |s: &Span| -> bool
            ensures { result ≡ begins_by place cycle s.now }
        { begins(s, place, cycle) },
    )
}

fn begins(span: &Span, place: u64, cycle: u64) -> bool
    ensures { result ≡ begins_by place cycle span.now }
{
    u64::from(span.link) < place || (u64::from(span.link) == place && span.from <= cycle)
}

// Whether there is a span with this number, of the link at this place.
fn is_of(spans: &[Span], number: usize, place: u64) -> bool
    ensures { IsTrue result ↔ ((number < length spans.now) × ((d : Span) → (slice_index_or spans.now number d).link ≡ place)) }
{
    number < spans.len() && u64::from(spans[number].link) == place
}

// Whether there is a span before this number, of the link at this place.
fn is_before(spans: &[Span], number: usize, place: u64) -> bool
    ensures { IsTrue result ↔ ((0 < number) × (number - 1 < length spans.now) × ((d : Span) → (slice_index_or spans.now (number - 1) d).link ≡ place)) }
{
    if number == 0 {
        return false;
    }
    is_of(spans, number - 1, place)
}

// The span of the link at this place that has begun last by the cycle.
fn last_begun(spans: &[Span], place: u64, cycle: u64) -> LastSpan
    requires apart { AllPairs IsSpanOrder spans.now }
    requires spans { All (λ x. x.from < x.until) spans.now }
    ensures { IsLastBegun spans.now place cycle result }
{
    let count = count_begun(spans, place, cycle);
    if is_before(spans, count, place) {
        return LastSpan::Until {
            until: spans[count - 1].until,
        };
    }
    if is_of(spans, count, place) {
        return LastSpan::NotYet;
    }
    LastSpan::Always
}

/// Whether the link at this place is open in this cycle.
pub fn is_open_at(spans: &[Span], place: u64, cycle: u64) -> bool
    requires apart { AllPairs IsSpanOrder spans.now }
    requires spans { All (λ x. x.from < x.until) spans.now }
    ensures { result ≡ is_open_in spans.now place cycle }
{
    match last_begun(spans, place, cycle) {
        LastSpan::Always => true,
        LastSpan::NotYet => false,
        LastSpan::Until { until } => cycle < until,
    }
}

/// Whether the link at this place was open in a cycle that is heard in this one.
pub fn is_reached(spans: &[Span], place: u64, latency: u64, byte_time: u64, cycle: u64) -> bool
    requires apart { AllPairs IsSpanOrder spans.now }
    requires spans { All (λ x. x.from < x.until) spans.now }
    requires sum { (latency ≤ LONGEST_LATENCY) × (1 ≤ byte_time) × (byte_time ≤ LONGEST_BYTE) }
    ensures { result ≡ is_reached_in spans.now place latency byte_time cycle }
{
    if cycle < latency {
        return false;
    }
    match last_begun(spans, place, cycle - latency) {
        LastSpan::Always => true,
        LastSpan::NotYet => false,
        LastSpan::Until { until } => is_in_reach(until, latency, byte_time, cycle),
    }
}

// Whether a byte of the cycle before `until` is still heard.
fn is_in_reach(until: u64, latency: u64, byte_time: u64, cycle: u64) -> bool
    requires sum { (latency ≤ LONGEST_LATENCY) × (1 ≤ byte_time) × (byte_time ≤ LONGEST_BYTE) × (latency ≤ cycle) }
    ensures { result ≡ nat_lt (cycle + 1) (until + latency + byte_time) }
{
    cycle - latency < until || cycle - latency - until < byte_time - 1
}
