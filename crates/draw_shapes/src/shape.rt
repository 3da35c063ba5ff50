//! Drawings.

use crate::figure::Figure;

/// Figures, or a group of figures under a title, which a pointer and a screen reader tell.
#[derive(Drop)]
pub enum Shape {
    Plain(Vec<Figure>),
    Titled(Vec<u8>, Vec<Figure>),
}

/// A drawing: what it is of, how high it is, and its shapes, the later ones over the earlier ones.
#[derive(Drop)]
pub struct Drawing {
    pub title: Vec<u8>,
    pub height: u32,
    pub shapes: Vec<Shape>,
}
