//! Markup that is well formed by its type: `svg` for drawings, `html` for pages.
#![tactic(auto)]

pub mod html;
pub mod svg;
