// Lists of tab stops where they stand: their order, and the last of them.
ghost use Rattle.std.specs.Prelude.{◌≡◌, take};
ghost use Rattle.printer.specs.Bounds.{list_bounds, last_of};
ghost use Rattle.printer.specs.Tools.{holds};

// Whether at most so many stops are held, and ascend strictly from 1 to a limit.
pub(crate) fn ascend(stops: &[u32], count: u32, most: u32, limit: u32) -> bool
    ensures { result ≡ holds (list_bounds most limit (record { stops = stops.entry.now; count = count })) }
{
    if most < count {
        return false;
    }
    let end = (count as usize).min(stops.len());
    let mut last = 0;
    for &stop in &stops[..end] {
        if stop <= last {
            return false;
        }
        last = stop;
    }
    last <= limit
}

// The last stop held, or 0.
pub(crate) fn last(stops: &[u32], count: u32) -> u32
    ensures { result ≡ last_of 0 (take count stops.now) }
{
    let end = (count as usize).min(stops.len());
    stops[..end].last().copied().unwrap_or(0)
}
