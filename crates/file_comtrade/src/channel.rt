//! The digital channel that an id names.

ghost use Rattle.std.specs.Prelude.{◌≡◌, ◌<◌, length, position, IfSome};
ghost use Rattle.std.specs.List.{list_any};
ghost use Rattle.file_comtrade.specs.{Named.named_in, Named.is_it, Named.IsNamedBelow, Views.texts};

use base_records::is;

/// The channels of an id.
#[derive(Clone, Copy)]
pub enum Named {
    /// No channel has it.
    Nothing,
    /// The one channel that has it, by its index.
    One(usize),
    /// Two channels have it, or more.
    More,
}

/// The channel with this id.
pub fn channel_named(ids: &[&[u8]], id: &[u8]) -> Named
    ensures value { result ≡ named_in (texts ids.now) id.now }
    ensures inside { IsNamedBelow (length ids.now) result }
{
    match first_named(ids, id) {
        None => Named::Nothing,
        Some(i) => {
            if is_any(&ids[i + 1..], id) {
                Named::More
            } else {
                Named::One(i)
            }
        }
    }
}

fn first_named(ids: &[&[u8]], id: &[u8]) -> Option<usize>
    ensures value { result ≡ position (is_it id.now) ids.now }
    ensures inside { IfSome result (λ i. i < length ids.now) }
{
    ids.iter().position(|other| is(other, id))
}

fn is_any(ids: &[&[u8]], id: &[u8]) -> bool
    ensures { result ≡ list_any (is_it id.now) ids.now }
{
    ids.iter().any(|other| is(other, id))
}
