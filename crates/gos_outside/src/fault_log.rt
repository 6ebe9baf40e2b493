// The faults of a store that can fail: how many there were, and the last of them.
//
// The last fault's name lies in bytes of the log's own, so a fault is kept without memory.
ghost use Rattle.std.specs.Prelude.{◌≡◌, ◌≤◌, length, Some};
ghost use Rattle.gos_outside.specs.Faults.{NoFault, ReadFault, WriteFault, count_after};
ghost use Rattle.gos_outside.specs.FaultLog.{fault_of, last_fault_of};

use std::marker::Model;

/// The two calls of a store.
#[derive(Clone, Copy, Debug, PartialEq, Eq)]
pub enum Call {
    Read,
    Write,
}

/// A count of faults, which stays at the largest `u64` once it is there, and the last fault.
#[derive(Drop)]
pub struct FaultLog {
    count: u64,
    last: Option<Call>,
    name: [u8; 255],
    len: usize,
}

impl Model for FaultLog {
    ghost use Rattle.std.specs.Prelude.{ℕ, ◌≤◌, take};
    ghost use Rattle.gos_outside.specs.Faults.{LastFault};

    ghost Value = { ℕ × LastFault };

    ghost use Rattle.gos_outside.specs.FaultLog.{fault_of};

    ghost view = { λ log. (log.count, fault_of log.last (take log.len log.name)) };

    ghost invariant = { λ log. log.len ≤ 255 };
}

impl FaultLog {
    /// The log of a store of which no call has failed.
    pub fn new() -> Self
        ensures count { result.0 ≡ 0 }
        ensures last { result.1 ≡ NoFault }
    {
        FaultLog {
            count: 0,
            last: None,
            name: [0; 255],
            len: 0,
        }
    }

    /// How many calls have failed.
    pub fn count(&self) -> u64
        ensures { result ≡ self.now.0 }
    {
        self.count
    }

    /// The last call that failed, and the name of its file.
    pub fn last(&self) -> Option<(Call, &[u8])>
        ensures { last_fault_of result ≡ self.now.1 }
    {
        let call = self.last?;
        Some((call, &self.name[..self.len]))
    }

    /// Counts a read of the file `name` that failed.
    pub fn read_failed(&mut self, name: &[u8])
        requires { length name.now ≤ 255 }
        ensures counted { self.new.0 ≡ count_after self.old.0 }
        ensures never_falls { self.old.0 ≤ self.new.0 }
        ensures last { self.new.1 ≡ ReadFault name.now }
    {
        self.failed(Call::Read, name);
    }

    /// Counts a write of the file `name` that failed.
    pub fn write_failed(&mut self, name: &[u8])
        requires { length name.now ≤ 255 }
        ensures counted { self.new.0 ≡ count_after self.old.0 }
        ensures never_falls { self.old.0 ≤ self.new.0 }
        ensures last { self.new.1 ≡ WriteFault name.now }
    {
        self.failed(Call::Write, name);
    }

    fn failed(&mut self, call: Call, name: &[u8])
        requires { length name.now ≤ 255 }
        ensures counted { self.new.0 ≡ count_after self.old.0 }
        ensures never_falls { self.old.0 ≤ self.new.0 }
        ensures last { self.new.1 ≡ fault_of (Some call) name.now }
    {
        self.count = self.count.saturating_add(1);
        self.last = Some(call);
        self.len = name.len();
        self.name[..name.len()].copy_from_slice(name);
    }
}

#[cfg(test)]
mod tests {
    use super::*;
    use std::test::Fail;

    #[test]
    fn the_last_fault_is_kept(rt: HostRuntime) -> Result<(), Fail> {
        let mut log = FaultLog::new();
        assert!(rt; log.last().is_none());
        log.read_failed(b"none.gos");
        log.write_failed(b"out.net");
        assert_eq!(rt; log.count(), 2);
        let (call, name) = log.last().ok_or("a call failed")?;
        assert_eq!(rt; call, Call::Write);
        assert_eq!(rt; name, b"out.net".as_slice());
        Ok(())
    }
}
