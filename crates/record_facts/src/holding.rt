// What the record of an air is to hold.
use air_base::{Ask, Heard, Send};
use air_cases::{Fault, Section, samples_of, sends_of};
use neighbour_sync::Air;
use std::alloc::Global;

// The sends, in this order.
fn expect_sends(air: &Air, sends: &[Send]) -> Result<(), Fault> {
    if air.sends() == sends {
        Ok(())
    } else {
        Err(Fault::OtherSends)
    }
}

// The samples, in this order.
fn expect_samples(air: &Air, samples: &[(Ask, Heard)]) -> Result<(), Fault> {
    if air.samples() == samples {
        Ok(())
    } else {
        Err(Fault::OtherSamples)
    }
}

// The cycle up to which it is cut.
fn expect_floor(air: &Air, floor: u64) -> Result<(), Fault> {
    if air.floor() == floor {
        Ok(())
    } else {
        Err(Fault::OtherFloor(air.floor()))
    }
}

/// Compares the record with what a section says of its sends, its samples or its floor. It answers false where the
/// section says nothing of these.
pub fn is_compared(alloc: Global, air: &Air, section: &Section<'_>) -> Result<bool, Fault> {
    match (section.word, section.numbers.as_slice()) {
        ("record", numbers) => expect_sends(air, &sends_of(alloc, numbers)?)?,
        ("samples", numbers) => expect_samples(air, &samples_of(alloc, numbers)?)?,
        ("floor", [floor]) => expect_floor(air, *floor)?,
        _ => return Ok(false),
    }
    Ok(true)
}
