// Which rows are whole, read plainly: of what instructions took and which retired since a field's opening.

use crate::lanes::{PXV, SOL, is_end, valid_bytes};
use crate::programs::Row;
use std::alloc::{AllocError, Global};

/// The instruction at a place took so many bytes of an entry of a queue; the entry by its place among those that entered.
#[derive(Clone, Copy)]
pub struct Taking {
    pub place: usize,
    pub queue: usize,
    pub entry: usize,
    pub count: u32,
}

/// What happened since the last opening of a field.
#[derive(Drop)]
pub struct Log {
    pub takings: Vec<Taking>,
    pub retired: Vec<usize>,
}

impl Log {
    pub fn new(alloc: Global) -> Log {
        Log {
            takings: Vec::new(alloc),
            retired: Vec::new(alloc),
        }
    }

    pub fn clear(&mut self) {
        self.takings.clear();
        self.retired.clear();
    }
}

/// An entry of which a row took bytes, and how many of them.
#[derive(Clone, Copy)]
struct Part {
    entry: usize,
    count: u32,
}

fn add_part(parts: &mut Vec<Part>, entry: usize, count: u32) -> Result<(), AllocError> {
    for part in parts.iter_mut() {
        if part.entry == entry {
            part.count = part.count.saturating_add(count);
            return Ok(());
        }
    }
    parts.push(Part { entry, count })?;
    Ok(())
}

/// The entries of a queue from which a row's instructions took bytes, in the order in which they were taken.
fn parts_of(alloc: Global, log: &Log, row: Row, queue: usize) -> Result<Vec<Part>, AllocError> {
    let mut parts = Vec::new(alloc);
    for taking in log.takings.iter() {
        if taking.queue == queue && row.has(taking.place) {
            add_part(&mut parts, taking.entry, taking.count)?;
        }
    }
    Ok(parts)
}

/// Whether they are one behind the other among those that entered.
fn are_consecutive(parts: &[Part]) -> bool {
    parts
        .iter()
        .zip(parts.iter().skip(1))
        .all(|(part, next)| part.entry.saturating_add(1) == next.entry)
}

/// Whether each was taken whole.
fn are_taken_whole(parts: &[Part], entered: &[u8]) -> bool {
    parts.iter().all(|part| entered.get(part.entry).map(|status| valid_bytes(*status))
        == Some(part.count))
}

/// Whether they are one SOL, any number of PXV and one end.
fn are_line(parts: &[Part], entered: &[u8]) -> bool {
    let mut status_at = 0usize;
    for part in parts {
        let Some(status) = entered.get(part.entry).copied() else {
            return false;
        };
        let is_last = status_at.saturating_add(1) == parts.len();
        let fits = match (status_at, is_last) {
            (0, _) => status == SOL && !is_last,
            (_, true) => is_end(status),
            _ => status == PXV,
        };
        if !fits {
            return false;
        }
        status_at = status_at.saturating_add(1);
    }
    true
}

/// Whether what a row took of a queue is a whole line, or nothing.
fn is_whole_on(parts: &[Part], entered: &[u8]) -> bool {
    are_consecutive(parts) && are_taken_whole(parts, entered) && are_line(parts, entered)
}

/// Whether each instruction of a row retired.
fn all_retired(log: &Log, row: Row) -> bool {
    (row.first..row.first.saturating_add(row.count)).all(|place| log.retired.contains(&place))
}

/// Whether a row is whole; `entered` has the entries of the three queues.
pub fn is_whole(
    alloc: Global,
    log: &Log,
    row: Row,
    entered: [&[u8]; 3],
) -> Result<bool, AllocError> {
    let mut whole = all_retired(log, row);
    for (queue, statuses) in entered.iter().enumerate() {
        let parts = parts_of(alloc, log, row, queue)?;
        whole = whole && is_whole_on(&parts, statuses);
    }
    Ok(whole)
}
