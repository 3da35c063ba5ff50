//! What a drawing is made of.

use crate::class::Class;

/// A rectangle from its upper left corner on.
#[derive(Clone, Copy)]
pub struct Rectangle {
    pub class: Class,
    pub x: u32,
    pub y: u32,
    pub width: u32,
    pub height: u32,
}

/// A line between two points.
#[derive(Clone, Copy)]
pub struct Stroke {
    pub class: Class,
    pub x1: u32,
    pub y1: u32,
    pub x2: u32,
    pub y2: u32,
}

/// Words on a line of text, whose base is at y; the class says whether they begin, end or are
/// centred at x.
#[derive(Drop)]
pub struct Label {
    pub class: Class,
    pub x: u32,
    pub y: u32,
    pub words: Vec<u8>,
}

/// A rectangle, a line or words.
#[derive(Drop)]
pub enum Figure {
    Rectangle(Rectangle),
    Line(Stroke),
    Text(Label),
}
