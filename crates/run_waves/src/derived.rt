//! What follows where it is claimed what each terminal keys: the wave of each gate of a net, over the
//! declared intervals; and where one wave does not cover another.
//!
//! A claim of what each terminal keys is taken as what is received. Where the claims cover the keys
//! that are so derived, they cover every history of the line, whatever the claims are.

mod cover;
mod declared;
mod gate;
mod net_waves;
mod script_wave;

pub use cover::first_uncovered_tick;
pub use declared::declared_param;
pub use gate::nth;
pub use net_waves::gate_waves;
