//! The ways in which a command ends, each with what its line tells.
ghost use Rattle.std.specs.Prelude.{◌≡◌};
ghost use Rattle.basv_top.specs.Ending.{told, ended, ended_run, status_of, refusal_status, report_status, end_status, take_ending};

use crate::limits::{LONG_CRUNCHED, LONG_IMAGE};
use crate::status::Status;
use arm2_machine::ImageError;
use basv_crunch::CrunchError;
use bv_base::NoMemory;
use bv_io::{PutError, SinkFault, TakeError};
use bv_run::{Report, RunEnd};
use profile_check::Refusal;
use token_file::FileError;

/// How a command ended, with what its line on the error output tells.
#[derive(Clone, Copy)]
pub enum Ending<'a> {
    /// It succeeded.
    Done,
    /// The words are no command.
    Usage,
    /// The file is refused, or memory ran out.
    Refused(Refusal),
    /// What has this name could not be taken.
    ReadFault { name: &'a str },
    /// A file or an output could not be written.
    WriteFault,
    /// The file is no image. Its bytes before `at` could begin one.
    NotImage { at: u32 },
    /// The piece of the text that has this number, counted from 1, is no line.
    BadText { line: u32 },
    /// The image was run under a bound of instructions, and its run ended so.
    Ran { end: RunEnd, bound: u64 },
}

impl<'a> Ending<'a> {
    /// The ending of a command that succeeded or was broken off.
    pub fn of(outcome: Result<(), Ending<'a>>) -> Ending<'a>
        ensures { told result ≡ ended outcome.entry }
    {
        match outcome {
            Ok(()) => Ending::Done,
            Err(ending) => ending,
        }
    }

    /// The ending of a command whose image ran under a bound, or was refused before.
    pub fn of_run(outcome: Result<RunEnd, Ending<'a>>, bound: u64) -> Ending<'a>
        ensures { told result ≡ ended_run outcome.entry bound }
    {
        match outcome {
            Ok(end) => Ending::Ran { end, bound },
            Err(ending) => ending,
        }
    }

    /// The ending of a command that could not take a name, where a content that is too long is refused so.
    pub fn not_taken(error: TakeError, name: &'a str, too_long: Refusal) -> Ending<'a>
        ensures { told result ≡ take_ending error name.now too_long }
    {
        match error {
            TakeError::Missing | TakeError::Failed => Ending::ReadFault { name },
            TakeError::TooLong => Ending::Refused(too_long),
            TakeError::NoMemory => Ending::Refused(Refusal::NoMemory),
        }
    }

    /// The status that the program ends with.
    pub fn status(self) -> Status
        ensures { result ≡ status_of (told self.entry) }
    {
        match self {
            Ending::Done => Status::Done,
            Ending::Usage => Status::Usage,
            Ending::Refused(refusal) => refusal_status(refusal),
            Ending::ReadFault { .. } => Status::ReadFault,
            Ending::WriteFault => Status::WriteFault,
            Ending::NotImage { .. } => Status::NotImage,
            Ending::BadText { .. } => Status::BadText,
            Ending::Ran { end, .. } => end_status(end),
        }
    }
}

fn report_status(report: Report) -> Status
    ensures { result ≡ report_status report }
{
    match report {
        Report::Done => Status::Done,
        Report::Failed { .. } => Status::Failed,
        Report::Stray { .. } => Status::Stray,
        Report::InputEnded { .. } => Status::InputEnded,
    }
}

fn end_status(end: RunEnd) -> Status
    ensures { result ≡ end_status end }
{
    match end {
        RunEnd::Over(report) => report_status(report),
        RunEnd::Going => Status::Bound,
        RunEnd::Broken { .. } => Status::Broken,
    }
}

fn refusal_status(refusal: Refusal) -> Status
    ensures { result ≡ refusal_status refusal }
{
    match refusal {
        Refusal::Malformed { .. } => Status::Malformed,
        Refusal::Outside { .. } => Status::Outside,
        Refusal::Limit { .. } => Status::Limit,
        Refusal::NoMemory => Status::NoMemory,
    }
}

impl From<Refusal> for Ending<'_> {
    ghost use Rattle.std.specs.Prelude.{◌≡◌};
    ghost use Rattle.basv_top.specs.Ending.{Refused, told};

    ghost from_gives = { λ refusal ending. told ending ≡ Refused refusal };

    fn from(refusal: Refusal) -> Self {
        Ending::Refused(refusal)
    }
}

impl From<FileError> for Ending<'_> {
    ghost use Rattle.std.specs.Prelude.{◌≡◌};
    ghost use Rattle.basv_top.specs.Ending.{Refused, told};
    ghost use Rattle.profile_check.specs.Files.{refusal_of};

    ghost from_gives = { λ error ending. told ending ≡ Refused (refusal_of error) };

    fn from(error: FileError) -> Self {
        Ending::Refused(Refusal::from(error))
    }
}

impl From<ImageError> for Ending<'_> {
    ghost use Rattle.std.specs.Prelude.{◌≡◌};
    ghost use Rattle.basv_top.specs.Ending.{image_ending, told};

    ghost from_gives = { λ error ending. told ending ≡ image_ending error };

    fn from(error: ImageError) -> Self {
        match error {
            ImageError::NotImage { at } => Ending::NotImage { at },
            ImageError::TooLong => Ending::Refused(LONG_IMAGE),
            ImageError::NoMemory => Ending::Refused(Refusal::NoMemory),
        }
    }
}

impl From<NoMemory> for Ending<'_> {
    ghost use Rattle.std.specs.Prelude.{◌≡◌};
    ghost use Rattle.profile_check.specs.declared.refusal.Refusal.TheVariants as refusals;
    ghost use Rattle.basv_top.specs.Ending.{Refused, told};

    ghost from_gives = { λ _ ending. told ending ≡ Refused refusals.NoMemory };

    fn from(_error: NoMemory) -> Self {
        Ending::Refused(Refusal::NoMemory)
    }
}

impl From<PutError> for Ending<'_> {
    ghost use Rattle.std.specs.Prelude.{◌≡◌};
    ghost use Rattle.basv_top.specs.Ending.{put_ending, told};

    ghost from_gives = { λ error ending. told ending ≡ put_ending error };

    fn from(error: PutError) -> Self {
        match error {
            PutError::Failed => Ending::WriteFault,
            PutError::NoMemory => Ending::Refused(Refusal::NoMemory),
        }
    }
}

impl From<SinkFault> for Ending<'_> {
    ghost use Rattle.std.specs.Prelude.{◌≡◌};
    ghost use Rattle.basv_top.specs.Ending.{WriteFault, told};

    ghost from_gives = { λ _ ending. told ending ≡ WriteFault };

    fn from(_fault: SinkFault) -> Self {
        Ending::WriteFault
    }
}

impl From<CrunchError> for Ending<'_> {
    ghost use Rattle.std.specs.Prelude.{◌≡◌};
    ghost use Rattle.basv_top.specs.Ending.{crunch_ending, told};

    ghost from_gives = { λ error ending. told ending ≡ crunch_ending error };

    fn from(error: CrunchError) -> Self {
        match error {
            CrunchError::BadText { line } => Ending::BadText { line },
            CrunchError::TooLong => Ending::Refused(LONG_CRUNCHED),
            CrunchError::NoMemory => Ending::Refused(Refusal::NoMemory),
        }
    }
}
