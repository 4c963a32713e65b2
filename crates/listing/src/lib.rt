// The list of the values that a recording holds, and its totals.
#![tactic(auto)]

ghost use Rattle.std.specs.Prelude.{◌≡◌, map, IfOk};
ghost use Rattle.std.specs.List.{flat_map};
ghost use Rattle.listing.specs.Cut.{Cut};
ghost use Rattle.listing.specs.Entries.{lines_of, entries};
ghost use Rattle.listing.specs.Handles.{Different};
ghost use Rattle.listing.specs.Items.{entry_of};
ghost use Rattle.listing.specs.Tally.{streams_of, spans_of, totals_of};

use items::{Item, read_items};
use std::alloc::{AllocError, Global};
use totals::{Totals, tally};

pub mod items;
pub mod totals;
pub mod value;

/// What the lines of a recording give, in their order, and the totals.
#[derive(Drop)]
pub struct Listing {
    pub items: Vec<Item>,
    pub totals: Totals,
}

/// Lists a recording; it fails only for want of memory.
pub fn list_recording(heap: Global, file: &[u8]) -> Result<Listing, AllocError>
    ensures items { IfOk result (λ l. map entry_of l.items.items ≡ entries file.now) }
    ensures lines { Cut file.now (lines_of file.now) }
    ensures totals { IfOk result (λ l. l.totals ≡ totals_of (entries file.now)) }
    ensures streams { IfOk result (λ l. Different (flat_map streams_of (entries file.now)) l.totals.distinct_streams) }
    ensures spans { IfOk result (λ l. Different (flat_map spans_of (entries file.now)) l.totals.distinct_spans) }
{
    let items = read_items(heap, file)?;
    let totals = tally(heap, items.as_slice())?;
    Ok(Listing { items, totals })
}
