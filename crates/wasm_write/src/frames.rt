//! Bodies behind their lengths, found by their numbers.
ghost use Rattle.std.specs.Prelude.{◌≡◌, ◌++◌, ◌≤◌, All, IfSome, List, MatchOption, Some, [], length, slice_get, ℕ};
ghost use Rattle.wasm_write.specs.Frames.{AreParts, Frame, IsFrame, frame_bytes, frames_bytes};

use crate::row_section::behind;
use wasm_leb::front_u32;

/// So many bytes in front of a length, the body behind it, and the bytes behind that.
fn front_frame(bytes: &[u8], head: usize) -> Option<(&[u8], &[u8], &[u8])>
    ensures framed { (f : Frame) (left : List ℕ) → IsFrame head f
        → bytes.now ≡ frame_bytes f ++ left
        → MatchOption result ⊥ (λ r. AreParts f left r.0.now r.1.now r.2.now) }
    ensures none { bytes.now ≡ [] → IfSome result (λ _. ⊥) }
{
    if bytes.len() < head {
        return None;
    }
    let Some((size, rest)) = front_u32(behind(bytes, head)) else {
        return None;
    };
    let size = size as usize;
    if rest.len() < size {
        return None;
    }
    Some((&bytes[..head], &rest[..size], &rest[size..]))
}

/// The frame of a number, counted from 0: so many bytes, and the body behind its length. None exactly where there are no more
/// frames.
pub(crate) fn frame_at(bytes: &[u8], head: usize, i: usize) -> Option<(&[u8], &[u8])>
    ensures { (fs : List Frame) → All (IsFrame head) fs → bytes.now ≡ frames_bytes fs
        → MatchOption result (length fs ≤ i)
        (λ r. slice_get fs i ≡ Some (record { head = r.0.now; body = r.1.now })) }
{
    let mut rest = bytes;
    let mut skipped = 0;
    'frames: while skipped < i {
        let Some(parts) = front_frame(rest, head) else {
            return None;
        };
        rest = parts.2;
        skipped += 1;
    }
    match front_frame(rest, head) {
        Some(parts) => Some((parts.0, parts.1)),
        None => None,
    }
}
