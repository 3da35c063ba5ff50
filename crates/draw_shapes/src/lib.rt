//! Drawings as values, and their text as SVG: shapes of rectangles, lines and words, each of a
//! class of one style sheet. Lengths are tenths of a pixel; a drawing is 1,000 pixels wide.
//!
//! `whole` is the drawing of a grid of cells: what is held full, what is open dotted, what fails
//! hatched, the border of what is held, numbers in round milliseconds, the declared point and a
//! legend of what is there. Each cell says its words to a pointer and a screen reader.
#![tactic(auto)]

mod border;
mod class;
mod document;
mod figure;
mod grid;
mod laws;
mod legend;
mod mark;
mod numbers;
mod pen;
mod rows;
mod scale;
mod shape;
mod spots;
mod style;
mod whole;

pub use class::{CLASSES, Class};
pub use document::{shapes, svg, title};
pub use figure::{Figure, Label, Rectangle, Stroke};
pub use grid::{Grid, GridCell, Look, Ruler};
pub use laws::each_class_is_listed;
pub use numbers::milliseconds;
pub use pen::{put_line, put_rectangle, put_text, put_words};
pub use rows::Rows;
pub use shape::{Drawing, Shape};
pub use style::{hatchings, put_rule};
pub use whole::draw;
