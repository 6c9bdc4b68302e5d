//! A subject's bytes.
ghost use Rattle.std.specs.Prelude.{◌≡◌, ◌≤◌, length, vec_capacity};

/// These bytes take the place of those in a list that has room for them.
pub(crate) fn put_in_place(list: &mut Vec<u8>, bytes: &[u8])
    requires { length bytes.now ≤ vec_capacity list.old }
    ensures { list.new.items ≡ bytes.now }
{
    list.clear();
    if let Err(_refused) = list.extend_from_slice(bytes) {
        unreachable!();
    }
}
