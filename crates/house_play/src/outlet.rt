//! Memory as the place where frames go.
ghost use Rattle.house_play.specs.Taken.{Anything};

use outbox::Output;
use std::alloc::Global;

/// Bytes that went out; none once there was no room for some.
#[derive(Drop)]
pub struct Outlet {
    bytes: Option<Vec<u8>>,
}

impl Outlet {
    pub fn new(heap: Global) -> Outlet {
        Outlet {
            bytes: Some(Vec::new(heap)),
        }
    }

    /// All that went out, if there was room for it.
    pub fn bytes(&self) -> Option<&[u8]> {
        self.bytes.as_ref().map(|bytes| bytes.as_slice())
    }
}

impl Output for Outlet {
    ghost writes = { Anything };

    fn write(&mut self, bytes: &[u8]) {
        if let Some(out) = &mut self.bytes {
            if out.extend_from_slice(bytes).is_err() {
                self.bytes = None;
            }
        }
    }

    fn flush(&mut self) {}
}
