//! The room that a caller lends.
ghost use Rattle.calls.specs.Room.{IsPut};

/// What is answered where the room is too small.
const TOO_SMALL: usize = usize::MAX;

/// Copies a text to the beginning of the room. A room that is too small stays as it is.
pub(crate) fn put(text: &[u8], room: &mut [u8]) -> usize
    ensures { IsPut text.now room.old room.new result }
{
    if room.len() < text.len() {
        return TOO_SMALL;
    }
    room[..text.len()].copy_from_slice(text);
    text.len()
}
