// A watch that counts drops.

use crate::watched::Watch;
use std::alloc::Global;
use std::sync::Arc;
use std::sync::atomic::{AtomicU64, Ordering};

/// A watch that adds one to a counter when it is dropped, and so when its device is: for tests, which share the counter.
pub struct Counts {
    pub drops: Arc<AtomicU64, Global>,
}

impl Drop for Counts {
    fn drop(self) {
        let Counts { drops } = self;
        let _ = drops.fetch_add(1, Ordering::SeqCst);
    }
}

impl Watch for Counts {
    fn writes(&self) {}
}
