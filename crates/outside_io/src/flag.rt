use acct_types::NoMemory;
use std::alloc::Global;
use std::sync::Arc;
use std::sync::atomic::{AtomicBool, Ordering};

/// A truth value that threads share. It begins lowered, and no clause tells what it holds.
#[derive(Drop)]
pub struct Flag {
    shared: Arc<AtomicBool>,
}

impl Flag {
    pub fn new(alloc: Global) -> Result<Flag, NoMemory> {
        Ok(Flag {
            shared: Arc::new(alloc, AtomicBool::new(false))?,
        })
    }

    /// Another handle of the same truth value.
    pub fn copy(&self) -> Result<Flag, NoMemory> {
        Ok(Flag {
            shared: Arc::try_clone(&self.shared)?,
        })
    }

    pub fn raise(&self) {
        self.shared.store(true, Ordering::SeqCst);
    }

    pub fn raised(&self) -> bool {
        self.shared.load(Ordering::SeqCst)
    }
}
