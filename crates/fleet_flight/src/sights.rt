// Which places of a node are bytes of its SRAM, and which instructions: where they stand side by side, they are looked at
// without a question of what each is.
ghost use Rattle.std.specs.Prelude.{◌≡◌, ◌≤◌, ◌<◌, ◌+◌, ◌-◌, ℕ, length, slice_index, slice_index_or, true, false, IfOk};
ghost use Rattle.std.specs.List.{All};
ghost use Rattle.data_space.specs.declared.regions.TheConstants.{SRAM_LEN};
ghost use Rattle.fleet_flight.specs.Shadows.{AreGrouped, IsInstruction, IsOfSram, IsSpot, key_of};
ghost use Rattle.fleet_flight.specs.Watched.{is_at, no_place};

use avr_base::NoMemory;
use data_space::SRAM_START;
use node_core::Node;
use node_places::{Place, Spot};
use std::alloc::Global;

/// Of places in an order those from `sram` on and below `at` are bytes of the SRAM, those from `at` on instructions.
#[derive(Drop)]
pub struct Sights {
    /// Of each place that is a byte of the SRAM how far it stands behind the first, of each instruction its address.
    pub keys: Vec<u16>,
    pub sram: usize,
    pub at: usize,
}

// Where a place stands in the SRAM, or in the flash.
fn key_of(spot: Spot) -> u16
    ensures { result ≡ key_of spot }
{
    match spot {
        Spot::Byte { address } => address.saturating_sub(SRAM_START),
        Spot::At { address } => address,
    }
}

// Whether it is a byte of the SRAM.
fn is_of_sram(spot: Spot) -> bool
    requires { IsSpot spot }
    ensures { result ≡ true → IsOfSram spot (key_of spot) }
{
    match spot {
        Spot::Byte { address } => address >= SRAM_START,
        Spot::At { .. } => false,
    }
}

// Whether it is an instruction.
fn is_instruction(spot: Spot) -> bool
    ensures { result ≡ true → IsInstruction spot (key_of spot) }
{
    match spot {
        Spot::Byte { .. } => false,
        Spot::At { .. } => true,
    }
}

// The key of each place.
fn keys_of(alloc: Global, places: &[Place]) -> Result<Vec<u16>, NoMemory>
    ensures count { IfOk result (λ v. length v.items ≡ length places.now) }
    ensures each { IfOk result (λ v. (j : ℕ) → j < length places.now → slice_index v.items j ≡ key_of (slice_index_or places.now j no_place).spot) }
{
    let mut keys = Vec::new(alloc);
    for place in places {
        if keys.push(key_of(place.spot)).is_err() {
            return Err(NoMemory);
        }
    }
    Ok(keys)
}

// The first place that is a byte of the SRAM or an instruction; how many places there are, where none is.
fn first_sight(places: &[Place]) -> usize
    requires { All (λ p. IsSpot p.spot) places.now }
    ensures { result ≤ length places.now }
{
    for k in 0..places.len() {
        let spot = places[k].spot;
        if is_of_sram(spot) || is_instruction(spot) {
            return k;
        }
    }
    places.len()
}

// The end of the bytes of the SRAM from the place `from` on.
fn end_of_sram(places: &[Place], from: usize) -> usize
    requires spots { All (λ p. IsSpot p.spot) places.now }
    requires within { from ≤ length places.now }
    ensures order { from ≤ result }
    ensures within { result ≤ length places.now }
    ensures each { (j : ℕ) → from ≤ j → j < result → IsOfSram (slice_index_or places.now j no_place).spot (key_of (slice_index_or places.now j no_place).spot) }
{
    for k in from..places.len() {
        if !is_of_sram(places[k].spot) {
            return k;
        }
    }
    places.len()
}

// Whether all places from `from` on are instructions.
fn are_instructions(places: &[Place], from: usize) -> bool
    requires { from ≤ length places.now }
    ensures { result ≡ true → (j : ℕ) → from ≤ j → j < length places.now → IsInstruction (slice_index_or places.now j no_place).spot (key_of (slice_index_or places.now j no_place).spot) }
{
    for k in from..places.len() {
        if !is_instruction(places[k].spot) {
            return false;
        }
    }
    true
}

/// Where these places are bytes of the SRAM and instructions. Of places that are not in rising order, it may say so of none.
pub fn sights_of(alloc: Global, places: &[Place]) -> Result<Sights, NoMemory>
    requires { All (λ p. IsSpot p.spot) places.now }
    ensures { IfOk result (λ v. AreGrouped places.now v) }
{
    let keys = keys_of(alloc, places)?;
    let sram = first_sight(places);
    let at = end_of_sram(places, sram);
    if are_instructions(places, at) {
        return Ok(Sights { keys, sram, at });
    }
    let none = places.len();
    Ok(Sights {
        keys,
        sram: none,
        at: none,
    })
}

// Whether the byte of the SRAM at a place is as it was.
#[inline]
fn is_same(keys: &[u16], last: &[u8], k: usize, node: &Node) -> bool
    requires within { k < length keys.now }
    requires count { length last.now ≡ length keys.now }
    requires sram { slice_index keys.now k < SRAM_LEN }
    ensures { result ≡ true → slice_index last.now k ≡ slice_index node.now.state.sram (slice_index keys.now k) }
{
    // the host finds the byte by its key alone
    node.sram(SRAM_START + keys[k]) == last[k]
}

// Whether those at four places are.
#[inline]
fn are_four_same(keys: &[u16], last: &[u8], k: usize, node: &Node) -> bool
    requires within { k + 4 ≤ length keys.now }
    requires count { length last.now ≡ length keys.now }
    requires sram { (j : ℕ) → k ≤ j → j < k + 4 → slice_index keys.now j < SRAM_LEN }
    ensures { result ≡ true → (j : ℕ) → k ≤ j → j < k + 4 → slice_index last.now j ≡ slice_index node.now.state.sram (slice_index keys.now j) }
{
    if !is_same(keys, last, k, node) {
        return false;
    }
    if !is_same(keys, last, k + 1, node) {
        return false;
    }
    if !is_same(keys, last, k + 2, node) {
        return false;
    }
    is_same(keys, last, k + 3, node)
}

// Whether those at the places from `from` on and below `to` are: one by one.
#[inline]
fn are_few_same(keys: &[u16], last: &[u8], from: usize, to: usize, node: &Node) -> bool
    requires within { to ≤ length keys.now }
    requires count { length last.now ≡ length keys.now }
    requires sram { (j : ℕ) → from ≤ j → j < to → slice_index keys.now j < SRAM_LEN }
    ensures { result ≡ true → (j : ℕ) → from ≤ j → j < to → slice_index last.now j ≡ slice_index node.now.state.sram (slice_index keys.now j) }
{
    for k in from..to {
        if !is_same(keys, last, k, node) {
            return false;
        }
    }
    true
}

/// Whether the bytes of the SRAM at the places from `from` on and below `to` are as they were.
#[inline]
pub fn is_still(keys: &[u16], last: &[u8], from: usize, to: usize, node: &Node) -> bool
    requires order { from ≤ to }
    requires within { to ≤ length keys.now }
    requires count { length last.now ≡ length keys.now }
    requires sram { (j : ℕ) → from ≤ j → j < to → slice_index keys.now j < SRAM_LEN }
    ensures { result ≡ true → (j : ℕ) → from ≤ j → j < to → slice_index last.now j ≡ slice_index node.now.state.sram (slice_index keys.now j) }
{
    let mut k = from;
    while to - k >= 4 {
        if !are_four_same(keys, last, k, node) {
            return false;
        }
        k += 4;
    }
    are_few_same(keys, last, k, to, node)
}

/// Whether none of the instructions at the places from `from` on begins.
#[inline]
pub fn begins_none(keys: &[u16], from: usize, begun: Option<u16>) -> bool
    requires { from ≤ length keys.now }
    ensures { result ≡ true → (j : ℕ) → from ≤ j → j < length keys.now → is_at begun (slice_index keys.now j) ≡ false }
{
    let Some(pc) = begun else {
        return true;
    };
    for k in from..keys.len() {
        if keys[k] == pc {
            return false;
        }
    }
    true
}
