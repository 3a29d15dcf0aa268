//! A sink for what nobody is to read.
ghost use Rattle.std.specs.Prelude.{◌≡◌, [], None};

use crate::log::{Call, Log};
use crate::sink::{Sink, SinkFault};
use std::marker::Model;

/// A sink that drops what it is given, tells nothing of it, and never fails.
#[derive(Drop)]
pub struct NullSink {
    log: Log,
}

// Its log.
impl Model for NullSink {
    ghost use Rattle.std.specs.Prelude.{List};
    ghost use Rattle.bv_io.specs.Log.{Event, log_code};

    ghost Value = { List Event };

    ghost coded = { log_code };

    ghost view = { λ s. s.log.events };
}

impl NullSink {
    pub fn new() -> NullSink
        ensures { result ≡ [] }
    {
        NullSink { log: Log::new() }
    }
}

impl Sink for NullSink {
    ghost written = { λ _. None };

    ghost faults = { λ _. 0 };

    ghost log = { λ s. s };

    fn write(&mut self, bytes: &[u8]) -> Result<(), SinkFault> {
        let answer = Ok(());
        self.log = self.log.then(&Call::Write {
            bytes,
            answer: &answer,
        });
        answer
    }
}
