//! The two lines of the bench.

ghost use Rattle.std.specs.Prelude.{◌≡◌, ◌++◌, IfOk, OnOk};
ghost use Rattle.call_pilot.specs.commands.BenchText.{told, scripts_line, accepted_line};
ghost use Rattle.call_pilot.specs.commands.BenchText.{bench_text as text_of};

use cert_claims::check::Counts;
use itoa::Buffer;
use model_line::Memory;
use std::alloc::Global;

/// `scripts N yes Y no M undecided U` and `accepted Y M U`, a line each.
pub fn bench_text(alloc: Global, scripts: u32, counts: Counts) -> Result<Vec<u8>, Memory>
    ensures { IfOk result (λ text. text.items ≡ text_of scripts counts) }
{
    let mut text = Vec::new(alloc);
    push_scripts(&mut text, scripts, counts)?;
    push_accepted(&mut text, counts)?;
    Ok(text)
}

fn push_scripts(text: &mut Vec<u8>, scripts: u32, counts: Counts) -> Result<(), Memory>
    ensures { OnOk result (text.new.items ≡ text.old.items ++ scripts_line scripts counts) }
{
    push_told(text, b"scripts ", scripts)?;
    push_told(text, b" yes ", counts.yes)?;
    push_told(text, b" no ", counts.no)?;
    push_told(text, b" undecided ", counts.undecided)?;
    text.extend_from_slice(b"\n")?;
    Ok(())
}

fn push_accepted(text: &mut Vec<u8>, counts: Counts) -> Result<(), Memory>
    ensures { OnOk result (text.new.items ≡ text.old.items ++ accepted_line counts) }
{
    push_told(text, b"accepted ", counts.yes)?;
    push_told(text, b" ", counts.no)?;
    push_told(text, b" ", counts.undecided)?;
    text.extend_from_slice(b"\n")?;
    Ok(())
}

// Appends a word and a number.
fn push_told(text: &mut Vec<u8>, word: &[u8], number: u32) -> Result<(), Memory>
    ensures { OnOk result (text.new.items ≡ text.old.items ++ told word.now number) }
{
    let mut digits = Buffer::new();
    text.extend_from_slice(word)?;
    text.extend_from_slice(digits.format(number).as_bytes())?;
    Ok(())
}
