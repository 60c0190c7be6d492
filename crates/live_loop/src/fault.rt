//! Why the live loop can't go on.

/// Why the loop was not made, or ended early. The children keep running.
#[derive(Clone, Copy)]
pub enum ServeFault {
    /// Memory for the loop's own rooms was refused. Only to [`Live::new`](crate::Live::new).
    NoMemory,
    /// The system refused to make the poll, to register the control socket with it, or to wait.
    Poll,
}
