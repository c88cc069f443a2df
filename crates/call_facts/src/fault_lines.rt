// The series of calls that a line of a case file tells.
use std::alloc::{AllocError, Global};
use stored_cases::words_of;

/// What fails in a series of calls, one place after another.
#[derive(Clone, Copy)]
pub enum Place<'l> {
    /// A read.
    Read,
    /// A write to the output, which takes so many bytes at a call. What is due there is held under this name.
    Out(usize, &'l str),
    /// A write to the error stream, likewise.
    Err(usize, &'l str),
    /// The end of this file.
    End(&'l str),
    /// Nothing: the call is made over so many pairs of images, which are drawn. The first word of each image is this
    /// much above that of the image before it, modulo 65,536.
    Drawn(u16, u16),
}

/// A series of calls.
#[derive(Drop)]
pub struct Series<'l> {
    /// What fails.
    pub place: Place<'l>,
    /// What is called.
    pub words: Vec<&'l str>,
}

fn place_of<'l>(words: &[&'l str]) -> Option<Place<'l>> {
    match words {
        ["reads"] => Some(Place::Read),
        ["out", step, due] => Some(Place::Out(step.parse::<usize>().ok()?, *due)),
        ["err", step, due] => Some(Place::Err(step.parse::<usize>().ok()?, *due)),
        ["cuts", name] => Some(Place::End(*name)),
        ["drawn", count, step] => Some(Place::Drawn(
            count.parse::<u16>().ok()?,
            step.parse::<u16>().ok()?,
        )),
        _ => None,
    }
}

/// The series of a line `PLACE: WORD ..`; `None` where it is no such line.
pub fn read_series(alloc: Global, line: &str) -> Result<Option<Series<'_>>, AllocError> {
    let Some((place, words)) = line.split_once(':') else {
        return Ok(None);
    };
    let place = words_of(alloc, place)?;
    let Some(place) = place_of(place.as_slice()) else {
        return Ok(None);
    };
    let words = words_of(alloc, words)?;
    Ok(Some(Series { place, words }))
}
