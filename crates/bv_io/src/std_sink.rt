//! The real streams. They belong to the trusted edge: that the bytes arrive is for a reader to see.
ghost use Rattle.std.specs.Prelude.{◌≡◌, [], Some};
ghost use Rattle.bv_io.specs.Log.{accepted};

use crate::log::{Call, Log};
use crate::sink::{Sink, SinkFault};
use std::io::{Stderr, Stdout};
use std::marker::Model;

/// Standard output or standard error. It tells what it accepted: the bytes of the writes that did not fail.
#[derive(Drop)]
pub struct StdSink<P: Print> {
    stream: P,
    faults: u64,
    log: Log,
}

// Its count of faults, and its log.
impl<P: Print> Model for StdSink<P> {
    ghost use Rattle.std.specs.Prelude.{ℕ, List};
    ghost use Rattle.std.specs.Coded.{coded×, coded_ℕ};
    ghost use Rattle.bv_io.specs.Log.{Event, log_code};

    ghost Value = { ℕ × List Event };

    ghost coded = { coded× coded_ℕ log_code };

    ghost view = { λ s. (s.faults, s.log.events) };
}

impl StdSink<Stdout> {
    /// Standard output, with no fault so far.
    pub fn out(rt: HostRuntime) -> StdSink<Stdout>
        ensures { result ≡ (0, []) }
    {
        StdSink {
            stream: rt.stdout(),
            faults: 0,
            log: Log::new(),
        }
    }
}

impl StdSink<Stderr> {
    /// Standard error, with no fault so far.
    pub fn err(rt: HostRuntime) -> StdSink<Stderr>
        ensures { result ≡ (0, []) }
    {
        StdSink {
            stream: rt.stderr(),
            faults: 0,
            log: Log::new(),
        }
    }
}

impl<P: Print> Sink for StdSink<P> {
    ghost written = { λ s. Some (accepted s.1) };

    ghost faults = { λ s. s.0 };

    ghost log = { λ s. s.1 };

    fn write(&mut self, bytes: &[u8]) -> Result<(), SinkFault> {
        let mut answer = Ok(());
        if self.stream.write_all(bytes).is_err() {
            self.faults = self.faults.saturating_add(1);
            answer = Err(SinkFault);
        }
        self.log = self.log.then(&Call::Write {
            bytes,
            answer: &answer,
        });
        answer
    }
}
