//! A heap that is filled, released and given back as a whole; a heap of which little or half is given back; and a row of
//! free granules by itself.

mod fragmented;
mod row;
mod whole;

use std::io;

pub(crate) fn time_heaps(rt: &HostRuntime) -> io::Result<()> {
    whole::report_whole(rt)?;
    fragmented::report_full(rt)?;
    fragmented::report_halves(rt)?;
    row::report_row(rt, 64)?;
    row::report_row(rt, 4096)
}
