//! What workers pass between tasks.

/// What a worker passes once with each task, before its work. It is shared between threads, and
/// promises nothing.
pub trait Gate: Sync {
    /// Passes with this task.
    fn pass(&self, task: u64);
}

/// The gate that lets everyone pass.
#[derive(Clone, Copy, Debug)]
pub struct OpenGate;

impl Gate for OpenGate {
    fn pass(&self, _task: u64) {}
}
