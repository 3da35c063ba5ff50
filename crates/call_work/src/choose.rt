//! The choices of settings: which of their values hold, as records.

mod denial;
mod said;

pub use denial::{ChooseDenial, choose_denial_line};
pub use said::choose_of;
