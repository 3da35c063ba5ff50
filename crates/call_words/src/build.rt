//! What the program says of the build that it is of.
//!
//! In the sources it is the build of the gate, which proves them. `tools/quick`, which proves nothing,
//! puts other words here in the copy that it builds.

/// What `study --version` says below the version.
pub const BUILD: &str = "proved with Rattle, logic dac8208d650f15bf";

/// What a page and a drawing say made them: the program and its version, and the same of its build.
pub const MADE: &[u8] = b"study 0.34.0, proved with Rattle, logic dac8208d650f15bf";
