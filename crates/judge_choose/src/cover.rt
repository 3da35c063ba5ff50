//! Positions side by side.

use crate::setting::Setting;

/// The positions of a setting from the first to the last: the box in which each of its intervals
/// goes from the least end at the first position to the greatest end at the last one.
#[derive(Clone, Copy)]
pub struct Cover<'a> {
    pub setting: &'a Setting,
    pub first: u32,
    pub last: u32,
}
