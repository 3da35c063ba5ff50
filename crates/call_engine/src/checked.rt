//! The lines that tell what a check of a text found. Scripts, terminals and parameters are told by
//! their names.
ghost use Rattle.std.specs.Prelude.{◌≡◌, IfOk};
ghost use Rattle.std.specs.List.{concat};
ghost use Rattle.call_engine.specs.Checked.{accepted_pieces, line_pieces, outside_pieces};
ghost use Rattle.call_engine.specs.Checked.{passes_pieces, place as place_of};
ghost use Rattle.model_line.specs.NamesByNumber.{script_name as name_of_script};
ghost use Rattle.model_line.specs.NamesByNumber.{terminal_name as name_of_terminal};

use call_answer::{Study, text_of};
use cert_claims::check::Counts;
use itoa::Buffer;
use model_line::{Memory, name_of_parameter, name_of_script, name_of_terminal};
use std::alloc::Global;

/// The counts of a text that is accepted.
pub fn accepted_text(alloc: Global, counts: Counts) -> Result<Vec<u8>, Memory>
    ensures { IfOk result (λ text. text.items ≡ concat (accepted_pieces counts)) }
{
    let (mut yes, mut no, mut undecided) = (Buffer::new(), Buffer::new(), Buffer::new());
    text_of(
        alloc,
        &[
            b"accepted ",
            yes.format(counts.yes).as_bytes(),
            b" ",
            no.format(counts.no).as_bytes(),
            b" ",
            undecided.format(counts.undecided).as_bytes(),
            b"\n",
        ],
    )
}

/// The first line that leaves the grammar; a text of trees may have more lines than 32 bits count.
pub fn rejected_line(alloc: Global, number: usize) -> Result<Vec<u8>, Memory>
    ensures { IfOk result (λ text. text.items ≡ concat (line_pieces number)) }
{
    let mut digits = Buffer::new();
    let number = digits.format(number).as_bytes();
    text_of(alloc, &[b"rejected Line ", number, b"\n"])
}

/// A number of a `no` that is outside its parameter's interval.
pub fn rejected_outside(
    alloc: Global,
    study: &Study,
    script: u32,
    terminal: u32,
    param: u32,
    value: u32,
) -> Result<Vec<u8>, Memory>
    ensures { IfOk result (λ text. text.items ≡ concat (outside_pieces study.now.line
        study.now.scripts.items script terminal param value)) }
{
    let mut digits = Buffer::new();
    let place = place(alloc, study, script, terminal)?;
    let param = name_of_parameter(&study.line, param);
    let value = digits.format(value).as_bytes();
    text_of(
        alloc,
        &[
            b"rejected Outside",
            place.as_slice(),
            b" ",
            param,
            b" ",
            value,
            b"\n",
        ],
    )
}

/// A `no` whose history meets the obligation, as the tick shows.
pub fn rejected_passes(
    alloc: Global,
    study: &Study,
    script: u32,
    terminal: u32,
    tick: u32,
) -> Result<Vec<u8>, Memory>
    ensures { IfOk result (λ text. text.items ≡ concat (passes_pieces study.now.line
        study.now.scripts.items script terminal tick)) }
{
    let mut digits = Buffer::new();
    let place = place(alloc, study, script, terminal)?;
    let tick = digits.format(tick).as_bytes();
    text_of(
        alloc,
        &[b"rejected Passes", place.as_slice(), b" ", tick, b"\n"],
    )
}

/// ` SCRIPT TERMINAL`.
pub fn place(alloc: Global, study: &Study, script: u32, terminal: u32) -> Result<Vec<u8>, Memory>
    ensures { IfOk result (λ text. text.items
        ≡ place_of study.now.line study.now.scripts.items script terminal) }
{
    let script = name_of_script(study.scripts.as_slice(), script);
    let terminal = name_of_terminal(&study.line, terminal);
    text_of(alloc, &[b" ", script, b" ", terminal])
}
