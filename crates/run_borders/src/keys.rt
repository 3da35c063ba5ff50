//! The keys among the waves of all gates.

ghost use Rattle.std.specs.Prelude.{◌≡◌, ◌≤◌, length, IfOk, IsTrue};
ghost use Rattle.run_waves.specs.waves.Waves.{AreWaves};
ghost use Rattle.run_borders.specs.LooseWaves.{AreKeysOf};

use crate::shown::steady;
use model_line::Memory;
use net_gates::Net;
use run_waves::derived::nth;
use run_waves::waves::Runs;
use std::alloc::Global;

/// So many keys that are never on.
pub(crate) fn no_keys(alloc: Global, count: u32, horizon: u32) -> Result<Vec<Runs>, Memory>
    requires some { 1 ≤ horizon }
    requires limited { horizon ≤ 4000 }
    ensures { IfOk result (λ keys. AreWaves count horizon keys.items) }
{
    let mut keys = Vec::new(alloc);
    for _ in 0..count {
        let key = steady(alloc, false, horizon)?;
        keys.push(key)?;
    }
    Ok(keys)
}

/// The waves of the gates of all keys.
pub(crate) fn derived_keys(
    alloc: Global,
    net: &Net,
    count: u32,
    waves: &[Runs],
) -> Result<Vec<Runs>, Memory>
    requires count { count ≡ length net.now.keys }
    requires waves { length waves.now ≡ length net.now.gates }
    ensures { IfOk result (λ keys. AreKeysOf net.now waves.now keys.items) }
{
    let mut keys = Vec::new(alloc);
    for k in 0..count {
        let gate = net.key_gate(k);
        let key = nth(waves, gate.0);
        let wave = key.copy(alloc)?;
        keys.push(wave)?;
    }
    Ok(keys)
}

/// Whether these are the waves of the gates of all keys.
pub(crate) fn are_derived(net: &Net, count: u32, waves: &[Runs], keys: &[Runs]) -> bool
    requires count { count ≡ length net.now.keys }
    requires waves { length waves.now ≡ length net.now.gates }
    requires keys { length keys.now ≡ length net.now.keys }
    ensures { IsTrue result → AreKeysOf net.now waves.now keys.now }
{
    for k in 0..count {
        let gate = net.key_gate(k);
        let derived = nth(waves, gate.0);
        let key = nth(keys, k);
        if !key.is_like(derived) {
            return false;
        }
    }
    true
}
