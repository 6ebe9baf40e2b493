// A sink in memory that never fails.
ghost use Rattle.std.specs.Prelude.{◌≡◌, []};

use crate::{Sink, SinkFault};
use std::alloc::Global;
use std::marker::Model;

/// Bytes in memory. No call fails but for want of memory.
#[derive(Drop)]
pub struct SureSink {
    held: Vec<u8>,
}

impl Model for SureSink {
    ghost use Rattle.std.specs.Prelude.{ℕ, List};

    ghost Value = { List ℕ };

    ghost view = { λ sink. sink.held.items };
}

impl SureSink {
    /// A sink that nothing was written to.
    pub fn new(alloc: Global) -> Self
        ensures { result ≡ [] }
    {
        SureSink {
            held: Vec::new(alloc),
        }
    }

    /// The bytes written so far.
    pub fn bytes(&self) -> &[u8]
        ensures { result.now ≡ self.now }
    {
        self.held.as_slice()
    }
}

impl Sink for SureSink {
    ghost use Rattle.std.specs.Prelude.{None, Some};

    ghost faults = { λ _. 0 };

    ghost written = { λ sink. Some sink };

    ghost writes = { λ _. None };

    fn write(&mut self, _alloc: Global, bytes: &[u8]) -> Result<(), SinkFault> {
        self.held.extend_from_slice(bytes)?;
        Ok(())
    }
}

#[cfg(test)]
mod tests {
    use super::*;
    use std::test::Fail;

    #[test]
    fn writes_follow_one_another(rt: HostRuntime) -> Result<(), Fail> {
        let mut sink = SureSink::new(rt.alloc());
        sink.write(rt.alloc(), b"ok weight ")?;
        sink.write(rt.alloc(), b"17\n")?;
        assert_eq!(rt; sink.bytes(), b"ok weight 17\n".as_slice());
        Ok(())
    }
}
