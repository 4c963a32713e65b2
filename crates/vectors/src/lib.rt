// Worked examples of the wire, run and compared: refusals with their places, exact bytes, exact room.
#![tactic(auto)]

#[cfg(test)]
mod reading;
#[cfg(test)]
mod words;
#[cfg(test)]
mod writing;

#[cfg(test)]
use fault::{Layer, Report, Word};
#[cfg(test)]
use std::process::Abort;
#[cfg(test)]
use std::test::Fail;

#[cfg(test)]
fn refused<T: Drop, E: Into<Report>>(
    rt: &impl Abort,
    answer: Result<T, E>,
    told: Report,
) -> Result<(), Fail> {
    let Err(fault) = answer else {
        return Err(Fail::new("served"));
    };
    assert_eq!(rt; fault.into(), told);
    Ok(())
}

#[cfg(test)]
fn report(word: Word, place: u64, layer: Layer) -> Report {
    Report { word, place, layer }
}
