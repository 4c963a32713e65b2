// Prints the values that a recording holds, and the totals.
#![tactic(auto)]

use anyhow::anyhow;
use listing::list_recording;
use listing_text::{ItemLine, TotalsLines};
use std::{env, fs};

fn run(rt: &HostRuntime) -> anyhow::Result<()> {
    let Some(name) = env::args(rt)?.nth(1) else {
        return Err(anyhow!("the name of a recording is missing"));
    };
    let file = fs::read(rt, name.as_str())?;
    let listing = list_recording(rt.alloc(), file.as_slice())?;
    for item in listing.items.iter() {
        rt.println(ItemLine(item))?;
    }
    rt.println(TotalsLines(listing.totals))?;
    Ok(())
}

fn main(rt: HostRuntime) -> anyhow::Result<()> {
    run(&rt)
}
