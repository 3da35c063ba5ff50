//! Levels that are put in place of gates' own values.

ghost use Rattle.std.specs.Prelude.{◌≡◌, ◌<◌, ◌≤◌, ℕ, Some, length, slice_get};
ghost use Rattle.model_logic.specs.Tree.{Tree};
ghost use Rattle.run_ticks.specs.cases.Masks.{put_rails, HaveRows, IsMask, Levels, PutLevels};

use run_signal::Signal;

/// Off in the lanes of `off`, then on in those of `on`; in all others a value stays as it is.
#[derive(Clone, Copy)]
pub struct Mask<V: Copy> {
    pub off: V,
    pub on: V,
}

/// For each gate the number of its row, if it has one, and for each tick a mask in each of so many
/// rows.
#[derive(Drop)]
pub struct Masks<V: Copy> {
    pub rows: Vec<Option<u32>>,
    pub count: u32,
    pub masks: Vec<Mask<V>>,
}

/// A value with what a mask puts.
pub fn put<V: Signal>(own: V, mask: &Mask<V>) -> V
    ensures { (lane : ℕ) → lane < V.signal.lanes → V.signal.rails result lane
        ≡ put_rails (V.signal.rails own lane) (V.signal.rails mask.now.off lane)
        (V.signal.rails mask.now.on lane) }
{
    own.and(mask.off.not()).or(mask.on)
}

/// The mask of a gate at a tick; without a row none.
pub fn mask_at<V: Signal>(masks: &Masks<V>, gates: u32, horizon: u32, gate: u32, t: u32) -> Mask<V>
    requires rows { HaveRows gates horizon masks.now }
    requires gate { gate < gates }
    requires tick { t < horizon }
    requires short { horizon ≤ 4000 }
    ensures { (level : Levels) (trees : ℕ → Tree) (lane : ℕ) → lane < V.signal.lanes →
        PutLevels V.signal level trees horizon masks.now →
        IsMask V.signal.rails lane (level lane (trees gate) t) result }
{
    match masks.rows[gate as usize] {
        None => Mask {
            off: V::known(false),
            on: V::known(false),
        },
        Some(row) => read(
            &masks.masks,
            t as usize * masks.count as usize + row as usize,
        ),
    }
}

// The value at a place of a list.
fn read<V: Copy>(list: &[Mask<V>], place: usize) -> Mask<V>
    requires { place < length list.now }
    ensures { slice_get list.now place ≡ Some result }
{
    list[place]
}
