// What the words and the record come to together.
ghost use Rattle.std.specs.Prelude.{◌≡◌, ◌+◌, ◌≤◌, ◌<◌, suc, List, [], ◌∷◌, ℕ, replicate, slice_index, slice_set};
ghost use Rattle.std.specs.List.{Contains};
ghost use mathlib.Core.Option.{some};
ghost use lib.ListN.{get_elem?};
ghost use Rattle.atomic_table.specs.Table.{State};
ghost use Rattle.atomic_table.specs.Seated.{TableId};
ghost use Rattle.air_base.specs.declared.air.Send.{Send};
ghost use Rattle.air_base.specs.declared.air.Heard.{Heard as HeardValue};
ghost use Rattle.world_core.specs.declared.world.WorldFacts.{WorldFacts};
ghost use Rattle.world_core.specs.Lawful.{IsLawful};
ghost use Rattle.world_core.specs.Sends.{sends_below, IsSendNumber};
ghost use Rattle.world_core.specs.Posted.{sent_of};
ghost use Rattle.world_core.specs.Kept.{epoch, IsPostedTo};
ghost use Rattle.world_core.specs.Consistent.{IsConsistent};
ghost use Rattle.world_core.specs.Steps.{opening, MayCut, MayPost, MayRaise, MaySample, after_cut, after_post, after_raise, after_sample};
ghost use Rattle.neighbour_sync.specs.declared.answers.Posted.TheVariants.{Added};
ghost use Rattle.neighbour_sync.specs.declared.rule.View.{View};
ghost use Rattle.neighbour_sync.specs.Layout.{clock_at, sent_at};
ghost use Rattle.neighbour_sync.specs.Record.{AirRecord, IsHeard, IsPost, cut_at, first_record, with_loads};
ghost use Rattle.neighbour_sync.specs.Rule.{KeepsRule};
ghost use Rattle.neighbour_sync.specs.Shows.{shown, AreAlike, AreShown, after_step, first_words};
ghost use Rattle.neighbour_sync.specs.Steps.{with_clock, with_load, with_sent};

/// Words that keep their rule, and a sound record whose counts are the sent words, show a consistent state of the
/// machine of clocks, sends and samples. The words as they are laid and the empty record are such, and show its opening.
pub fn state_law()
    ensures first { (w : WorldFacts) (z : TableId) → IsLawful w → AreShown (first_words w) (first_record z w []) (replicate w.topo.nodes 0) }
    ensures opening { (w : WorldFacts) (z : TableId) → shown (first_record z w []) (replicate w.topo.nodes 0) ≡ opening w }
    ensures consistent { (s : State (Unit {0}) View) (r : AirRecord) (clocks : List ℕ) → AreShown s r clocks → IsConsistent (shown r clocks) }
{}

/// What the running calls make of words and record is what the machine's moves make of the state that these show, and
/// they show one again. A node's seat that stores its clock word is a raise, by what `Clocks::raise` asks; a send that is
/// added, with its sent word, is a post; a sample that is heard is a sample, where the clocks that the record's seat
/// loaded for it stand no lower since; a cut is a cut. A load of a clock by that seat, and each step that leaves the
/// clock words and the sent words as they are, is no move.
pub fn step_law()
    ensures raised { (s : State (Unit {0}) View) (r : AirRecord) (clocks : List ℕ) (k c : ℕ) (v : View) → AreShown s r clocks → get_elem? s.views (suc k) ≡ some v
        → v.clock ≤ c → c ≤ r.world.topo.limit → sends_below r.world.sends k c ≤ v.told
        → MayRaise (shown r clocks) k c × AreShown (after_step s (clock_at k) c (suc k) (with_clock v c)) r (slice_set clocks k c) × (shown r (slice_set clocks k c) ≡ after_raise (shown r clocks) k c) }
    ensures posted { (s : State (Unit {0}) View) (r new : AirRecord) (clocks : List ℕ) (x : Send) (n : ℕ) (v : View) → AreShown s r clocks → get_elem? s.views 0 ≡ some v
        → IsSendNumber r.world n x → x.cycle < r.floor + epoch → IsPost r x n Added new
        → MayPost (shown r clocks) x.node × AreShown (after_step s (sent_at r.world.topo.nodes x.node) (sent_of r.sent x.node + 1) 0 (with_sent v x.node)) new clocks × (shown new clocks ≡ after_post (shown r clocks) x.node) }
    ensures loaded { (s : State (Unit {0}) View) (r : AirRecord) (clocks : List ℕ) (k : ℕ) (v : View) → AreShown s r clocks → get_elem? s.views 0 ≡ some v → k < r.world.topo.nodes
        → AreShown (after_step s (clock_at k) (slice_index s.words (clock_at k)) 0 (with_load v k (slice_index s.words (clock_at k)))) (with_loads r ((k, slice_index s.words (clock_at k)) ∷ [])) clocks }
    ensures sampled { (s : State (Unit {0}) View) (r new : AirRecord) (clocks : List ℕ) (j c : ℕ) (h : HeardValue) (more : List (ℕ × ℕ)) → AreShown s (with_loads r more) clocks
        → Contains r.world.asks record { node = j; cycle = c } → r.floor ≤ c → IsHeard r j c h more new
        → MaySample (shown r clocks) j c × AreShown s new clocks × (shown new clocks ≡ after_sample (shown r clocks) j c) }
    ensures cut { (s : State (Unit {0}) View) (r : AirRecord) (clocks : List ℕ) (f : ℕ) (more : List (ℕ × ℕ)) → AreShown s (with_loads r more) clocks
        → r.floor ≤ f → f ≤ r.world.topo.limit → IsPostedTo r.world f r.sent
        → MayCut (shown r clocks) f × AreShown s (cut_at (with_loads r more) f) clocks × (shown (cut_at (with_loads r more) f) clocks ≡ after_cut (shown r clocks) f) }
    ensures others { (s t : State (Unit {0}) View) (r : AirRecord) (clocks : List ℕ) → AreShown s r clocks → KeepsRule r.world t → AreAlike r.world.topo.nodes s t → AreShown t r clocks }
{}
