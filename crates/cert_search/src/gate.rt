//! A hook that observes a search.

/// Observes a search. The worker that searches a claim calls it at the beginning and at the end.
pub trait Gate {
    /// Is called when a worker has taken a claim, before the search begins.
    fn started(&self, claim: usize);

    /// Is called when the claim's answer is known.
    fn finished(&self, claim: usize);
}

/// A gate that does nothing.
pub struct NoGate;

impl Gate for NoGate {
    fn started(&self, _claim: usize) {}

    fn finished(&self, _claim: usize) {}
}
