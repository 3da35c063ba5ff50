//! Printing scripts as a file.

ghost use Rattle.std.specs.Prelude.{[], ◌≡◌, ◌∷◌, ◌++◌, IfOk, OnOk, map, IsTrue};
ghost use Rattle.std.specs.List.{All};
ghost use Rattle.std.specs.Fmt.{decimal};
ghost use Rattle.csv.specs.Writing.{row_text, default_writer};
ghost use Rattle.model_line.specs.Fits.{Fits, exists_in};
ghost use Rattle.file_tables.specs.script.Values.{values_of, AreOfOneFile};
ghost use Rattle.file_tables.specs.script.Printed.{head_record, row_record, script_records, file_records};
ghost use Rattle.file_tables.specs.script.Printed.{records_text};
ghost use Rattle.file_tables.specs.script.Scripts.{scripts_in};

use itoa::Buffer;
use model_line::{
    Kind, Line, Memory, Script, SeenSpan, What, channel_name, element_word, kind_word,
};
use std::alloc::Global;

/// The file of these scripts: the header and each script's records.
pub fn print_scripts(alloc: Global, line: &Line, scripts: &[Script]) -> Result<Vec<u8>, Memory>
    requires fit { All (Fits line.now) scripts.now }
    requires one_file { AreOfOneFile (map values_of scripts.now) }
    ensures text { IfOk result (λ v. v.items
        ≡ records_text (file_records line.now (map values_of scripts.now))) }

    // These records stand for the same scripts.
    ensures stand { scripts_in line.now (file_records line.now (map values_of scripts.now))
        ≡ Ok (map values_of scripts.now) }
{
    let mut text = Vec::new(alloc);
    push_record(
        alloc, &mut text, b"script", b"item", b"place", b"from", b"to",
    )?;
    for script in scripts {
        push_script(alloc, &mut text, line, script)?;
    }
    Ok(text)
}

fn push_script(
    alloc: Global,
    text: &mut Vec<u8>,
    line: &Line,
    script: &Script,
) -> Result<(), Memory>
    requires { Fits line.now script.now }
    ensures { OnOk result (text.new.items
        ≡ text.old.items ++ records_text (script_records line.now (values_of script.now))) }
{
    push_head(alloc, text, script)?;
    push_rows(alloc, text, line, script)
}

fn push_head(alloc: Global, text: &mut Vec<u8>, script: &Script) -> Result<(), Memory>
    ensures { OnOk result (text.new.items
        ≡ text.old.items ++ row_text default_writer (head_record (values_of script.now))) }
{
    let name = script.name.bytes();
    let mut buffer = Buffer::new();
    let deadline = buffer.format(script.deadline).as_bytes();
    let kind = kind_word(script.kind);
    match script.kind {
        Kind::Internal => push_record(alloc, text, name, kind, b"", deadline, b""),
        Kind::External => push_record(alloc, text, name, kind, b"", b"", b""),
    }
}

fn push_rows(alloc: Global, text: &mut Vec<u8>, line: &Line, script: &Script) -> Result<(), Memory>
    requires { Fits line.now script.now }
    ensures { OnOk result (text.new.items ≡ text.old.items
        ++ records_text (map (row_record line.now script.now.name) script.now.spans.items)) }
{
    for span in &script.spans {
        push_row(alloc, text, line, script.name.bytes(), *span)?;
    }
    Ok(())
}

fn push_row(
    alloc: Global,
    text: &mut Vec<u8>,
    line: &Line,
    name: &[u8],
    span: SeenSpan,
) -> Result<(), Memory>
    requires { IsTrue (exists_in line.now span.what) }
    ensures { OnOk result (text.new.items
        ≡ text.old.items ++ row_text default_writer (row_record line.now name.now span)) }
{
    match span.what {
        What::Element(place) => {
            let terminal = &line.terminals[place.terminal as usize];
            let item = element_word(place.element);
            push_fields(alloc, text, name, item, terminal.name.bytes(), span)
        }
        What::Loss(channel) => {
            let place = channel_name(line.terminals.as_slice(), line.channels[channel as usize]);
            push_fields(alloc, text, name, b"loss", place.bytes(), span)
        }
    }
}

fn push_fields(
    alloc: Global,
    text: &mut Vec<u8>,
    name: &[u8],
    item: &[u8],
    place: &[u8],
    span: SeenSpan,
) -> Result<(), Memory>
    ensures { OnOk result (text.new.items ≡ text.old.items ++ row_text default_writer
        (name.now ∷ item.now ∷ place.now ∷ decimal span.from ∷ decimal span.to ∷ [])) }
{
    let mut from = Buffer::new();
    let from = from.format(span.from).as_bytes();
    let mut to = Buffer::new();
    let to = to.format(span.to).as_bytes();
    push_record(alloc, text, name, item, place, from, to)
}

// A record of five fields.
fn push_record<'a>(
    alloc: Global,
    text: &mut Vec<u8>,
    name: &'a [u8],
    item: &'a [u8],
    place: &'a [u8],
    from: &'a [u8],
    to: &'a [u8],
) -> Result<(), Memory>
    ensures { OnOk result (text.new.items ≡ text.old.items ++ row_text default_writer
        (name.now ∷ item.now ∷ place.now ∷ from.now ∷ to.now ∷ [])) }
{
    base_records::push_record(alloc, text, &[name, item, place, from, to])
}
