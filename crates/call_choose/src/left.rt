//! The words of obligations that are lost, or left.

ghost use Rattle.std.specs.Prelude.{◌≡◌, ◌<◌, ◌++◌, ◌^◌, length, IfOk, OnOk};
ghost use Rattle.call_choose.specs.Left.{IsSmallBound, count_mark, left_of, left_words, lost_words, open_mark};

use base_text::pieces::push_pieces;
use itoa::Buffer;
use judge_choose::Bound;
use judge_margins::map::{obligations_text, push_obligation};
use model_line::{Line, Memory, Script};
use std::alloc::Global;

/// Over which line and scripts obligations are told, and whether none that is not held is open.
#[derive(Clone, Copy)]
pub struct Over<'a> {
    pub line: &'a Line,
    pub scripts: &'a [Script],
    pub is_one_railed: bool,
}

/// The obligation that is lost at an end of a range, as `SCRIPT/TERMINAL`.
pub fn lost_text(alloc: Global, of: &Over<'_>, bound: Bound) -> Result<Vec<u8>, Memory>
    requires { IsSmallBound bound }
    ensures { IfOk result (λ text. text.items
        ≡ lost_words of.now.line.now of.now.scripts.now of.now.is_one_railed bound) }
{
    let mut text = Vec::new(alloc);
    if let Bound::Lost(place) = bound {
        push_obligation(&mut text, of.line, of.scripts, place as u32)?;
        text.extend_from_slice(mark(of.is_one_railed))?;
    }
    Ok(text)
}

fn mark(one_railed: bool) -> &'static [u8]
    ensures { result.now ≡ open_mark one_railed }
{
    if one_railed { b"" } else { b" (open)" }
}

/// The first three of those that are left, and how many there are where there are more.
pub fn left_text(alloc: Global, of: &Over<'_>, kept: &[bool]) -> Result<Vec<u8>, Memory>
    requires { length kept.now < 2 ^ 32 }
    ensures { IfOk result (λ text. text.items
        ≡ left_words of.now.line.now of.now.scripts.now of.now.is_one_railed
        (left_of kept.now)) }
{
    let left = left_in(alloc, kept)?;
    words_of(alloc, of, left.as_slice())
}

// The same of places.
fn words_of(alloc: Global, of: &Over<'_>, left: &[u32]) -> Result<Vec<u8>, Memory>
    ensures { IfOk result (λ text. text.items
        ≡ left_words of.now.line.now of.now.scripts.now of.now.is_one_railed left.now) }
{
    match left {
        [] => Ok(Vec::new(alloc)),
        [_, ..] => {
            let few = &left[..left.len().min(3)];
            let mut text = obligations_text(alloc, of.line, of.scripts, few)?;
            push_count(&mut text, left.len())?;
            text.extend_from_slice(mark(of.is_one_railed))?;
            Ok(text)
        }
    }
}

// Appends how many there are, if there are more than three.
fn push_count(text: &mut Vec<u8>, count: usize) -> Result<(), Memory>
    ensures { OnOk result (text.new.items ≡ text.old.items ++ count_mark count) }
{
    if count > 3 {
        let mut digits = Buffer::new();
        push_pieces(text, &[b";..", digits.format(count).as_bytes()])?;
    }
    Ok(())
}

// The places of those that are not kept, in order.
fn left_in(alloc: Global, kept: &[bool]) -> Result<Vec<u32>, Memory>
    requires { length kept.now < 2 ^ 32 }
    ensures { IfOk result (λ left. left.items ≡ left_of kept.now) }
{
    let mut left = Vec::new(alloc);
    for place in 0..kept.len() {
        if !kept[place] {
            left.push(place as u32)?;
        }
    }
    Ok(left)
}
