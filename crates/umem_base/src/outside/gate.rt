/// What a worker passes before each of its calls, so that a test can choose an interleaving.
pub trait Gate {
    /// Comes once before each call of a thread and after its earlier ones. `call` is how many those are. A gate
    /// sees nothing else of a run.
    fn pass(&self, thread: u32, call: u32);
}

/// A gate that keeps nobody.
#[derive(Clone, Copy, Debug)]
pub struct NoGate;

impl Gate for NoGate {
    fn pass(&self, _thread: u32, _call: u32) {}
}
