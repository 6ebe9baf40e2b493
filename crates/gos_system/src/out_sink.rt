// The sink of the program: standard output.
//
// It doesn't tell what was written. Where that goes is not ours to say.
ghost use Rattle.std.specs.Prelude.{◌≡◌};

use gos_outside::{Sink, SinkFault};
use std::alloc::Global;
use std::marker::Model;

/// Standard output. A write that the system refuses, as to a closed pipe, fails.
pub struct OutSink<'a, R: Print> {
    rt: &'a R,
    faults: u64,
}

impl<'a, R: Print> Model for OutSink<'a, R> {
    ghost use Rattle.std.specs.Prelude.{ℕ};

    ghost Value = { ℕ };

    ghost view = { λ sink. sink.faults };
}

impl<'a, R: Print> Drop for OutSink<'a, R> {
    fn drop(self) {
        let OutSink { rt: _, faults: _ } = self;
    }
}

impl<'a, R: Print> OutSink<'a, R> {
    /// The output that `rt` reaches; no call has failed.
    pub fn new(rt: &'a R) -> Self
        ensures { result ≡ 0 }
    {
        OutSink { rt, faults: 0 }
    }

    /// How many calls have failed.
    pub fn faults(&self) -> u64
        ensures { result ≡ self.now }
    {
        self.faults
    }
}

impl<'a, R: Print> Sink for OutSink<'a, R> {
    ghost use Rattle.std.specs.Prelude.{None};

    ghost faults = { λ sink. sink };

    ghost written = { λ _. None };

    ghost writes = { λ _. None };

    fn write(&mut self, _alloc: Global, bytes: &[u8]) -> Result<(), SinkFault> {
        match self.rt.write_all(bytes) {
            Ok(()) => Ok(()),
            Err(_) => {
                self.faults = self.faults.saturating_add(1);
                Err(SinkFault::Failed)
            }
        }
    }
}

#[cfg(test)]
mod tests {
    use super::*;
    use std::cell::RefCell;
    use std::fmt::Display;
    use std::io;
    use std::io::ErrorKind;
    use std::test::Fail;

    /// An output that keeps what is written, or refuses it.
    #[derive(Drop)]
    struct Screen {
        shown: RefCell<Vec<u8>>,
        is_closed: bool,
    }

    impl Print for Screen {
        fn print<D: Display + Drop>(&self, _value: D) -> io::Result<()> {
            Err(io::Error::from(ErrorKind::Unsupported))
        }

        fn println<D: Display + Drop>(&self, _value: D) -> io::Result<()> {
            Err(io::Error::from(ErrorKind::Unsupported))
        }

        fn write_all(&self, bytes: &[u8]) -> io::Result<()> {
            if self.is_closed {
                return Err(io::Error::from(ErrorKind::BrokenPipe));
            }
            match self.shown.try_borrow_mut() {
                Ok(mut shown) => Ok(shown.extend_from_slice(bytes)?),
                Err(_) => Err(io::Error::from(ErrorKind::WouldBlock)),
            }
        }
    }

    fn blank_screen(alloc: Global, is_closed: bool) -> Screen {
        Screen {
            shown: RefCell::new(Vec::new(alloc)),
            is_closed,
        }
    }

    #[test]
    fn bytes_come_out_unless_the_output_is_closed(rt: HostRuntime) -> Result<(), Fail> {
        let alloc = rt.alloc();
        let open = blank_screen(alloc, false);
        {
            let mut sink = OutSink::new(&open);
            sink.write(alloc, b"ok weight ")?;
            sink.write(alloc, b"17\n")?;
            assert_eq!(rt; sink.faults(), 0);
        }
        let Screen {
            shown,
            is_closed: _,
        } = open;
        assert_eq!(rt; shown.into_inner().as_slice(), b"ok weight 17\n".as_slice());

        let closed = blank_screen(alloc, true);
        let mut sink = OutSink::new(&closed);
        assert!(rt; matches!(sink.write(alloc, b"lost"), Err(SinkFault::Failed)));
        assert_eq!(rt; sink.faults(), 1);
        Ok(())
    }

    #[test]
    fn long_line_comes_out_whole(rt: HostRuntime) -> Result<(), Fail> {
        let alloc = rt.alloc();
        let mut line = Vec::new(alloc);
        for number in 0..1_000_000u32 {
            line.push((number % 251) as u8)?;
        }
        let open = blank_screen(alloc, false);
        {
            let mut sink = OutSink::new(&open);
            sink.write(alloc, line.as_slice())?;
        }
        let Screen {
            shown,
            is_closed: _,
        } = open;
        assert!(rt; shown.into_inner().as_slice() == line.as_slice());
        Ok(())
    }
}
