//! The calls that a shelf or a sink was given. They exist only in proofs, and cost nothing when the program runs.
ghost use Rattle.std.specs.Prelude.{◌≡◌, List, [], ◌∷◌};
ghost use base.Fml.{ftrue};
ghost use Rattle.bv_io.specs.Log.{Event, log_code};

use crate::shelf::{PutError, TakeError};
use crate::sink::SinkFault;
use std::marker::Model;

/// All calls so far, the newest first.
#[derive(Drop)]
pub(crate) struct Log {
    pub(crate) ghost events: { List Event } by { log_code },
}

impl Model for Log {
    ghost also_owns = { λ _. ftrue };
}

/// One call with its answer.
#[derive(Clone, Copy, Drop)]
pub(crate) enum Call<'a> {
    Take {
        name: &'a str,
        answer: &'a Result<Vec<u8>, TakeError>,
    },
    Put {
        name: &'a str,
        bytes: &'a [u8],
        answer: &'a Result<(), PutError>,
    },
    Write {
        bytes: &'a [u8],
        answer: &'a Result<(), SinkFault>,
    },
}

impl Log {
    ghost use Rattle.bv_io.specs.Calls.{event_of};

    /// No call was made.
    pub(crate) fn new() -> Log
        ensures { result.events ≡ [] }
    {
        Log {}
    }

    /// The log with a call more.
    #[inline(always)]
    pub(crate) fn then(&self, _call: &Call<'_>) -> Log
        ensures { result.events ≡ event_of _call.now ∷ self.now.events }
    {
        Log {}
    }
}
