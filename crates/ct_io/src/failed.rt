/// A read or a write that failed. What failed is known to the source or the sink alone.
#[derive(Clone, Copy)]
pub struct Failed;
