//! The map of one or two settings: where each obligation is held as they move, as a drawing or as
//! records.

mod axes;
mod denial;
mod said;

pub(crate) use denial::{line_of, unknown_line};
pub use denial::{MapDenial, Side, map_denial_line};
pub use said::map_of;
