//! Bytes put into a caller's room.
ghost use Rattle.std.specs.Prelude.{◌≡◌, ◌+◌, ◌-◌, ◌≤◌, length, slice_range};
ghost use borrow.Rule.Slice.PartMut.{put_mid};
ghost use Rattle.capi.specs.Room.{put_text};

/// Puts bytes into a room from the index `at` on, as many as there is room for.
pub fn put(room: &mut [u8], at: usize, bytes: &[u8])
    ensures { room.new ≡ put_text room.old at bytes.now }
{
    if at < room.len() {
        let count = bytes.len().min(room.len() - at);
        room[at..at + count].copy_from_slice(&bytes[..count]);
    }
}

/// Puts bytes into a room from the index `at` on, all of them.
pub fn put_all(room: &mut [u8], at: usize, bytes: &[u8])
    requires { at + length bytes.now ≤ length room.old }
    ensures { room.new ≡ put_text room.old at bytes.now }
{
    room[at..at + bytes.len()].copy_from_slice(bytes);
}

/// Copies the `count` bytes before the index `at` to that index.
pub fn put_again(room: &mut [u8], at: usize, count: usize)
    requires { (count ≤ at) × (at + count ≤ length room.old) }
    ensures { room.new ≡ put_mid at count room.old (slice_range room.old (at - count) at) }
{
    let (taken, free) = room.split_at_mut(at);
    free[..count].copy_from_slice(&taken[at - count..]);
}
