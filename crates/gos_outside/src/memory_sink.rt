// A sink in memory some of whose calls are to fail.
//
// It shows what a caller does where a write fails. Beyond what the trait promises, the clauses of
// its calls say which of them fail, and what each leaves.
ghost use Rattle.std.specs.Prelude.{◌≡◌, ◌↔◌, [], OnOk, IsErrOf};
ghost use Rattle.gos_outside.specs.Faults.{CountsFaults};
ghost use Rattle.gos_outside.specs.PlannedFaults.{NextFails};
ghost use Rattle.gos_outside.specs.MemorySink.{called, failed, appended_to};

use crate::planned_faults::PlannedFaults;
use crate::{Sink, SinkFault};
use std::alloc::Global;
use std::marker::Model;

/// Bytes in memory. A write fails where its number is among those that are to fail, and appends
/// nothing then.
#[derive(Drop)]
pub struct MemorySink {
    held: Vec<u8>,
    planned: PlannedFaults,
    faults: u64,
}

impl Model for MemorySink {
    ghost use Rattle.gos_outside.specs.MemorySink.{SinkState};

    ghost Value = { SinkState };

    ghost view = { λ sink. record {
      bytes = sink.held.items;
      calls = sink.planned.calls;
      fail = sink.planned.fail;
      faults = sink.faults;
    } };
}

impl MemorySink {
    /// A sink of which no call was made. `fail` are the numbers of the writes that are to fail:
    /// writes are counted from 1, up to the largest `u64`.
    pub fn new(alloc: Global, fail: Vec<u64>) -> Self
        ensures bytes { result.bytes ≡ [] }
        ensures fail { result.fail ≡ fail.items }
        ensures calls { result.calls ≡ 0 }
        ensures faults { result.faults ≡ 0 }
    {
        MemorySink {
            held: Vec::new(alloc),
            planned: PlannedFaults::new(fail),
            faults: 0,
        }
    }

    /// The bytes written so far.
    pub fn bytes(&self) -> &[u8]
        ensures { result.now ≡ self.now.bytes }
    {
        self.held.as_slice()
    }

    /// How many calls have failed.
    pub fn faults(&self) -> u64
        ensures { result ≡ self.now.faults }
    {
        self.faults
    }
}

impl Sink for MemorySink {
    ghost use Rattle.std.specs.Prelude.{None, Some};

    ghost faults = { λ sink. sink.faults };

    ghost written = { λ sink. Some sink.bytes };

    ghost writes = { λ _. None };

    fn write(&mut self, _alloc: Global, bytes: &[u8]) -> Result<(), SinkFault>
        ensures written { OnOk result (self.new ≡ appended_to bytes.now self.old) }
        ensures fails { IsErrOf result SinkFault.Failed ↔ NextFails self.old.calls self.old.fail }
        ensures failed { IsErrOf result SinkFault.Failed → self.new ≡ failed self.old }
        ensures no_memory { IsErrOf result SinkFault.NoMemory → self.new ≡ called self.old }

        // As the trait has it.
        ensures counts { CountsFaults (IsErrOf result SinkFault.Failed) self.old.faults self.new.faults }
    {
        if self.planned.next_fails() {
            self.faults = self.faults.saturating_add(1);
            return Err(SinkFault::Failed);
        }
        self.held.extend_from_slice(bytes)?;
        Ok(())
    }
}

#[cfg(test)]
mod tests {
    use super::*;
    use std::test::Fail;

    #[test]
    fn the_listed_write_fails_and_appends_nothing(rt: HostRuntime) -> Result<(), Fail> {
        let alloc = rt.alloc();
        let mut fail = Vec::new(alloc);
        fail.push(1)?;
        let mut sink = MemorySink::new(alloc, fail);
        assert!(rt; sink.write(alloc, b"lost").is_err());
        assert_eq!(rt; sink.bytes(), b"".as_slice());
        assert_eq!(rt; sink.faults(), 1);
        sink.write(alloc, b"ok\n")?;
        assert_eq!(rt; sink.bytes(), b"ok\n".as_slice());
        assert_eq!(rt; sink.faults(), 1);
        Ok(())
    }
}
