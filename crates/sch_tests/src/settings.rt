//! How a run in memory is set up, and what is told of it.

/// How many bytes a sink holds, of which a run with its output told writes fewer.
pub const ROOM: usize = 1_048_576;

/// How a run is set up, and what is told of it.
#[derive(Clone, Copy)]
pub struct Setting {
    /// How many bytes the output has room for.
    pub room: usize,
    /// How many bytes a read gives at most; 0 stands for as many as there are.
    pub most_read: usize,
    /// How many bytes a write takes at most; 0 stands for as many as there are.
    pub most_written: usize,
    /// Which call of the shelf fails, the first being 1; 0 stands for none.
    pub failing_read: u64,
    /// Which write to the output fails, likewise.
    pub failing_write: u64,
    /// Which write to the error output fails, likewise.
    pub failing_line: u64,
    /// Whether the steps are told in place of the outputs.
    pub are_steps: bool,
}

/// No call fails, and the outputs are told, of which the first has room for less.
pub const PLAIN: Setting = Setting {
    room: 65_536,
    most_read: 0,
    most_written: 0,
    failing_read: 0,
    failing_write: 0,
    failing_line: 0,
    are_steps: false,
};
