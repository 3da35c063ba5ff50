//! Lists that grow within the room that they have, so that no memory is taken.

ghost use Rattle.std.specs.Prelude.{◌≡◌, ◌≤◌, ◌+◌, ◌++◌, length, vec_capacity};

/// Appends values to a list with room for them.
pub fn extend_within<V: Copy>(list: &mut Vec<V>, values: &[V])
    requires { length list.old.items + length values.now ≤ vec_capacity list.old }
    ensures items { list.new.items ≡ list.old.items ++ values.now }
    ensures room { vec_capacity list.old ≤ vec_capacity list.new }
{
    list.extend_from_slice(values).unwrap();
}
