//! The line on the error output that an ending has.
ghost use Rattle.std.specs.Prelude.{◌≡◌, ◌/◌, ◌%◌, ◌<◌, ◌≤◌, [], ◌∷◌, ◌++◌, OnOk, OnErr};
ghost use Rattle.bv_io.specs.Shelf.{Rose};
ghost use Rattle.bv_io.specs.Sink.{with_bytes, WritesPart};
ghost use Rattle.bv_num.specs.Digits.{digit_byte};
ghost use Rattle.basv_top.specs.Ending.{message_text, told, limit_word, trap_word, address_digits, refusal_text, report_text, end_text, text_of, line_of};
ghost use Rattle.basv_top.specs.Seen.{Writes, seen_sink};

use crate::ending::Ending;
use crate::status::Status;
use bv_io::{Sink, SinkFault};
use bv_num::digit_byte;
use bv_run::{Report, RunEnd, Trap};
use itoa::Buffer;
use profile_check::{Refusal, Which};

const USAGE: &[u8] =
    b"usage: basv list FILE / compile FILE IMAGE / interp FILE / run IMAGE / selftest SEED LINES / crunch TEXT FILE";

/// A line on the error output, in pieces. Those that it has not are empty.
#[derive(Clone, Copy)]
struct Message<'a> {
    text: &'a [u8],
    name: &'a [u8],
    link: &'a [u8],
    number: &'a [u8],
    tail: &'a [u8],
    line: &'a [u8],
}

impl<'a> Message<'a> {
    /// A text, and a number after it.
    fn numbered(text: &'a [u8], number: &'a str) -> Message<'a>
        ensures { message_text result ≡ text.now ++ number.now }
    {
        Message {
            number: number.as_bytes(),
            ..Message::plain(text)
        }
    }

    /// The whole of one piece.
    fn plain(text: &'a [u8]) -> Message<'a>
        ensures text { result.text.now ≡ text.now }
        ensures middle { (result.name.now ≡ []) × (result.link.now ≡ []) × (result.number.now ≡ []) }
        ensures last { (result.tail.now ≡ []) × (result.line.now ≡ []) }
    {
        Message {
            text,
            name: b"",
            link: b"",
            number: b"",
            tail: b"",
            line: b"",
        }
    }
}

/// Room for the numbers of a line.
#[derive(Drop)]
struct Numbers {
    first: Buffer,
    second: Buffer,
    address: [u8; 8],
}

impl Numbers {
    fn new() -> Numbers {
        Numbers {
            first: Buffer::new(),
            second: Buffer::new(),
            address: [b'0'; 8],
        }
    }
}

/// The word of a limit in a line on the error output.
fn limit_word(which: Which) -> &'static [u8]
    ensures { result.now ≡ limit_word which }
{
    match which {
        Which::File => b"file",
        Which::Names => b"names",
        Which::Strings => b"strings",
        Which::Parameters => b"parameters",
        Which::Dimensions => b"dimensions",
        Which::Input => b"input",
        Which::Image => b"image",
        Which::Text => b"text",
    }
}

/// The word of a trap's kind in a line on the error output.
fn trap_word(kind: Trap) -> &'static [u8]
    ensures { result.now ≡ trap_word kind }
{
    match kind {
        Trap::Data => b"data",
        Trap::Fetch => b"fetch",
        Trap::Undefined => b"undefined",
        Trap::Unpredictable => b"unpredictable",
        Trap::Swi => b"swi",
    }
}

/// The hexadecimal digit of an address at the place that has this value, a power of 16.
fn digit_at(address: u32, place_value: u32) -> u8
    requires { 0 < place_value }
    ensures { result ≡ digit_byte (address / place_value % 16) }
{
    digit_byte(address / place_value % 16)
}

/// The eight hexadecimal digits of an address.
fn address_digits(address: u32) -> [u8; 8]
    ensures { result ≡ address_digits address }
{
    [
        digit_at(address, 0x1000_0000),
        digit_at(address, 0x100_0000),
        digit_at(address, 0x10_0000),
        digit_at(address, 0x1_0000),
        digit_at(address, 0x1000),
        digit_at(address, 0x100),
        digit_at(address, 0x10),
        digit_at(address, 1),
    ]
}

fn refusal_message(refusal: Refusal, numbers: &mut Numbers) -> Message<'_>
    ensures { message_text result ≡ refusal_text refusal }
{
    match refusal {
        Refusal::Malformed { at } => {
            Message::numbered(b"malformed file at byte ", numbers.first.format(at))
        }
        Refusal::Outside { line } => {
            Message::numbered(b"outside the profile at line ", numbers.first.format(line))
        }
        Refusal::Limit { which, count } => Message {
            name: limit_word(which),
            link: b" at ",
            number: numbers.first.format(count).as_bytes(),
            ..Message::plain(b"limit ")
        },
        Refusal::NoMemory => Message::plain(b"no memory"),
    }
}

fn report_message(report: Report, numbers: &mut Numbers) -> Message<'_>
    ensures { message_text result ≡ report_text report }
{
    match report {
        Report::Done => Message::plain(b""),
        Report::Failed { error, line } => Message {
            number: numbers.first.format(error).as_bytes(),
            tail: b" at line ",
            line: numbers.second.format(line).as_bytes(),
            ..Message::plain(b"error ")
        },
        Report::Stray {
            kind,
            address,
            line,
        } => {
            numbers.address = address_digits(address);
            Message {
                text: b"stray ",
                name: trap_word(kind),
                link: b" at &",
                number: &numbers.address,
                tail: b" from line ",
                line: numbers.second.format(line).as_bytes(),
            }
        }
        Report::InputEnded { line } => {
            Message::numbered(b"input ended at line ", numbers.first.format(line))
        }
    }
}

fn end_message(end: RunEnd, bound: u64, numbers: &mut Numbers) -> Message<'_>
    ensures { message_text result ≡ end_text end bound }
{
    match end {
        RunEnd::Over(report) => report_message(report, numbers),
        RunEnd::Going => Message {
            number: numbers.first.format(bound).as_bytes(),
            tail: b" reached",
            ..Message::plain(b"bound ")
        },
        RunEnd::Broken { kind, address } => {
            numbers.address = address_digits(address);
            Message {
                name: trap_word(kind),
                link: b" at &",
                number: &numbers.address,
                ..Message::plain(b"broken ")
            }
        }
    }
}

fn ending_message<'a>(ending: Ending<'a>, numbers: &'a mut Numbers) -> Message<'a>
    ensures { message_text result ≡ text_of (told ending.entry) }
{
    match ending {
        Ending::Done => Message::plain(b""),
        Ending::Usage => Message::plain(USAGE),
        Ending::Refused(refusal) => refusal_message(refusal, numbers),
        Ending::ReadFault { name } => Message {
            name: name.as_bytes(),
            ..Message::plain(b"cannot read ")
        },
        Ending::WriteFault => Message::plain(b"cannot write"),
        Ending::NotImage { at } => {
            Message::numbered(b"not an image at byte ", numbers.first.format(at))
        }
        Ending::BadText { line } => {
            Message::numbered(b"bad text at line ", numbers.first.format(line))
        }
        Ending::Ran { end, bound } => end_message(end, bound, numbers),
    }
}

/// Writes a piece, unless it is empty.
fn write_piece<E: Sink>(err: &mut E, piece: &[u8]) -> Result<(), SinkFault>
    ensures ok { OnOk result (E.written err.new ≡ with_bytes (E.written err.old) piece.now) }
    ensures part { OnErr result (WritesPart (E.written err.old) piece.now (E.written err.new)) }
    ensures failed { OnErr result (Rose (E.faults err.old) (E.faults err.new)) }
    ensures faults { E.faults err.old ≤ E.faults err.new }
{
    if piece.is_empty() {
        return Ok(());
    }
    err.write(piece)
}

/// Writes a message as a line, which allocates nothing.
fn write_line<E: Sink>(err: &mut E, message: &Message<'_>) -> Result<(), SinkFault>
    ensures ok { OnOk result (E.written err.new ≡ with_bytes (E.written err.old) (message_text message.now ++ 10 ∷ [])) }
    ensures part { OnErr result (WritesPart (E.written err.old) (message_text message.now ++ 10 ∷ []) (E.written err.new)) }
    ensures failed { OnErr result (Rose (E.faults err.old) (E.faults err.new)) }
{
    'pieces: for piece in [
        message.text,
        message.name,
        message.link,
        message.number,
        message.tail,
        message.line,
    ] {
        write_piece(err, piece)?;
    }
    err.write(b"\n")
}

fn write_ending<E: Sink>(err: &mut E, ending: Ending<'_>) -> Result<(), SinkFault>
    ensures ok { OnOk result (E.written err.new ≡ with_bytes (E.written err.old) (line_of (told ending.entry))) }
    ensures part { OnErr result (WritesPart (E.written err.old) (line_of (told ending.entry)) (E.written err.new)) }
    ensures failed { OnErr result (Rose (E.faults err.old) (E.faults err.new)) }
{
    if let Status::Done = ending.status() {
        return Ok(());
    }
    let mut numbers = Numbers::new();
    write_line(err, &ending_message(ending, &mut numbers))
}

/// Writes the line of an ending on the error output, whose fault changes nothing.
pub fn report<E: Sink>(err: &mut E, ending: Ending<'_>)
    ensures { Writes (seen_sink E.Sink err.old) (seen_sink E.Sink err.new) (line_of (told ending.entry)) }
{
    let _ = write_ending(err, ending);
}
