//! How far the line under way is on each queue.

/// How far the line under way is on a queue (this project's own rule).
#[derive(Clone, Copy, Debug, PartialEq, Eq)]
pub enum LineMark {
    /// Nothing of it was taken.
    Fresh,
    /// Entries that follow one another were taken, up to some byte before its last.
    Within,
    /// Its last byte was taken.
    Done,
    /// What was taken makes no line, whatever may still be taken.
    Spoilt,
}

/// The marks of the three queues.
#[derive(Clone, Copy, Debug, PartialEq, Eq)]
pub struct LineMarks {
    /// Of queue 1.
    pub one: LineMark,
    /// Of queue 2.
    pub two: LineMark,
    /// Of queue 3.
    pub three: LineMark,
}
