//! How objects lie in a region.

ghost use Rattle.std.specs.Prelude.{◌≡◌, ◌<◌, ◌≤◌, ◌+◌, ◌^◌};
ghost use Rattle.fx_sections.specs.Regions.{empty, with_object, page_count};

/// Where the next object of a region begins, and where the last one ends.
#[derive(Clone, Copy, Debug, PartialEq, Eq)]
pub struct Room {
    pub next: u64,
    pub end: u64,
}

/// A global's section and its bytes.
#[derive(Clone, Copy, Debug, PartialEq, Eq)]
pub struct GlobalSize {
    pub section: usize,
    pub size: u64,
}

/// A region that begins at a place and has no object.
pub fn empty(start: u64) -> Room
    ensures { result ≡ empty start }
{
    Room {
        next: start,
        end: start,
    }
}

/// A region with one more object: it begins at a multiple of 16, at least 16 bytes past the end of
/// the object before it.
pub fn with_object(room: Room, size: u64) -> Room
    requires { room.next + size + 32 < 2 ^ 64 }
    ensures { result ≡ with_object room size }
{
    let end = room.next + size;
    Room {
        next: (end + 16 + 15) / 16 * 16,
        end,
    }
}

/// Whole pages, at least one.
pub fn page_count(bytes: u64) -> u64
    requires { bytes + 4095 < 2 ^ 64 }
    ensures { result ≡ page_count bytes }
{
    ((bytes + 4095) / 4096).max(1)
}
