//! Kept ranges that are cut into made bytes.
ghost use Rattle.std.specs.Prelude.{◌≡◌, ◌++◌, ◌∷◌, ◌+◌, ◌-◌, ◌<◌, ◌≤◌, ◌^◌, [], List, length, take, drop, slice_range, IfOk, IsTrue, OnOk, OnErr};
ghost use Rattle.reencode_core.specs.declared.pieces.cuts.Cut.{Cut};
ghost use Rattle.reencode_core.specs.Pieces.{AreCuts, cut_bytes, cut_made, cut_pieces, last_made, last_of, raised};
ghost use Rattle.reencode_core.specs.declared.pieces.piece.Piece.TheVariants.{Made};

use crate::pieces::piece::Piece;
use std::alloc::Global;
use wasm_leb::{List, NoMemory};

/// A range of the input that is kept: the place of its first byte, and the place behind its last.
#[derive(Clone, Copy)]
pub(crate) struct Cut {
    /// How many made bytes stand in front of it, behind the range before.
    pub made: usize,
    pub start: usize,
    pub end: usize,
}

/// Has so many made bytes more stand in front of the first range.
pub(crate) fn raise(cuts: &mut Vec<Cut>, more: usize)
    requires { more + cut_made cuts.old.items < 2 ^ 64 }
    ensures { cuts.new.items ≡ raised more cuts.old.items }
{
    raise_first(cuts.as_mut_slice(), more);
}

/// The same of a slice.
fn raise_first(cuts: &mut [Cut], more: usize)
    requires { more + cut_made cuts.old < 2 ^ 64 }
    ensures { cuts.new ≡ raised more cuts.old }
{
    if let Some(first) = cuts.first_mut() {
        first.made += more;
    }
}

/// The place of the last range, where others come behind one at a place: these begin behind so many bytes, and have so many made
/// ones up to their last.
pub(crate) fn last_behind(cuts: &[Cut], last: usize, begun: usize, made: usize) -> usize
    requires short { begun + made < 2 ^ 64 }
    requires made { made ≡ cut_made cuts.now }
    ensures { result ≡ last_of cuts.now last begun }
{
    if cuts.is_empty() { last } else { begun + made }
}

/// Whether some bytes stand in the input between the last range and a place.
pub(crate) fn stand_behind(input: &[u8], cuts: &[Cut], bytes: &[u8], place: usize) -> bool
    requires { place ≤ length input.now }
    ensures { IsTrue result → (front : List Cut) × (last : Cut) × (cuts.now ≡ front ++ last ∷ [])
        × (last.end ≤ place) × (slice_range input.now last.end place ≡ bytes.now) }
{
    let Some((last, _)) = cuts.split_last() else {
        return false;
    };
    if last.end > place {
        return false;
    }
    &input[last.end..place] == bytes
}

/// Has the last range end at another place.
pub(crate) fn lengthen_last(cuts: &mut [Cut], end: usize)
    ensures { (front : List Cut) (last : Cut) → cuts.old ≡ front ++ last ∷ []
        → cuts.new ≡ front ++ record last { end = end } ∷ [] }
{
    let count = cuts.len();
    if count > 0 {
        cuts[count - 1].end = end;
    }
}

/// Appends bytes, and others behind them.
pub(crate) fn add_two(out: &mut Vec<u8>, head: &[u8], bytes: &[u8]) -> Result<(), NoMemory>
    ensures ok { OnOk result (out.new.items ≡ out.old.items ++ (head.now ++ bytes.now)) }
    ensures err { OnErr result (out.new.items ≡ out.old.items) }
{
    let begun = out.len();
    match out.extend_from_slice(head) {
        Ok(()) => {}
        Err(_) => return Err(NoMemory),
    }
    match out.extend_from_slice(bytes) {
        Ok(()) => Ok(()),
        Err(_) => {
            out.truncate(begun);
            Err(NoMemory)
        }
    }
}

/// Copies bytes over the first of others.
fn put_in_front(bytes: &mut [u8], head: &[u8])
    requires { length head.now ≤ length bytes.old }
    ensures { bytes.new ≡ head.now ++ drop (length head.now) bytes.old }
{
    bytes[..head.len()].copy_from_slice(head);
}

/// Appends some bytes, and others behind so many that are room. Where these are as many as there are bytes then, they are
/// copied into the room, and the memory of the others is that of `out` from then on.
pub(crate) fn take_over(
    out: &mut Vec<u8>,
    head: &[u8],
    bytes: Vec<u8>,
    front: usize,
) -> Result<(), NoMemory>
    requires { front ≤ length bytes.items }
    ensures ok { OnOk result (out.new.items ≡ out.old.items ++ (head.now ++ drop front bytes.items)) }
    ensures err { OnErr result (out.new.items ≡ out.old.items) }
{
    let begun = out.len();
    match out.extend_from_slice(head) {
        Ok(()) => {}
        Err(_) => return Err(NoMemory),
    }
    let mut bytes = bytes;
    if out.len() == front {
        put_in_front(bytes.as_mut_slice(), out);
        *out = bytes;
        return Ok(());
    }
    match out.extend_from_slice(&bytes[front..]) {
        Ok(()) => Ok(()),
        Err(_) => {
            out.truncate(begun);
            Err(NoMemory)
        }
    }
}

/// Some made bytes, as a piece.
fn made_piece(alloc: Global, bytes: &[u8]) -> Result<Piece, NoMemory>
    ensures { IfOk result (λ piece. piece ≡ Made bytes.now) }
{
    match Vec::from_slice(alloc, bytes) {
        Ok(bytes) => Ok(Piece::Made(List::from_vec(bytes))),
        Err(_) => Err(NoMemory),
    }
}

/// Adds a piece.
fn add_piece(pieces: &mut Vec<Piece>, piece: Piece) -> Result<(), NoMemory>
    ensures { OnOk result (pieces.new.items ≡ pieces.old.items ++ piece ∷ []) }
{
    match pieces.push(piece) {
        Ok(()) => Ok(()),
        Err(_) => Err(NoMemory),
    }
}

/// The pieces, and the bytes behind them as the last one, where there are any.
fn with_last(pieces: Vec<Piece>, made: Vec<u8>) -> Result<Vec<Piece>, NoMemory>
    ensures { IfOk result (λ all. all.items ≡ pieces.items ++ last_made made.items) }
{
    let mut pieces = pieces;
    if made.is_empty() {
        return Ok(pieces);
    }
    match pieces.push(Piece::Made(List::from_vec(made))) {
        Ok(()) => Ok(pieces),
        Err(_) => Err(NoMemory),
    }
}

/// The pieces of made bytes, without so many that are room, and of the ranges that are cut into them.
pub(crate) fn cut_out(
    alloc: Global,
    made: Vec<u8>,
    front: usize,
    cuts: &[Cut],
) -> Result<Vec<Piece>, NoMemory>
    requires { front + cut_made cuts.now ≤ length made.items }
    ensures { IfOk result (λ pieces. pieces.items ≡ cut_pieces (drop front made.items) cuts.now) }
{
    let mut pieces = Vec::new(alloc);
    if front == 0 && cuts.is_empty() {
        return with_last(pieces, made);
    }
    let mut at = front;
    'cuts: for cut in cuts {
        let next = at + cut.made;
        let piece = made_piece(alloc, &made[at..next])?;
        add_piece(&mut pieces, piece)?;
        add_piece(
            &mut pieces,
            Piece::Kept {
                start: cut.start,
                end: cut.end,
            },
        )?;
        at = next;
    }
    match Vec::from_slice(alloc, &made[at..]) {
        Ok(last) => with_last(pieces, last),
        Err(_) => Err(NoMemory),
    }
}

/// Takes away so many bytes that are room in front of others.
pub(crate) fn drop_room(bytes: &mut Vec<u8>, room: usize)
    requires { room ≤ length bytes.old.items }
    ensures { bytes.new.items ≡ drop room bytes.old.items }
{
    if room == 0 {
        return;
    }
    let len = bytes.len();
    bytes.copy_within(room..len, 0);
    bytes.truncate(len - room);
}

/// Copies bytes to a place.
fn put_at(out: &mut [u8], place: usize, bytes: &[u8])
    requires { place + length bytes.now ≤ length out.old }
    ensures { out.new ≡ take place out.old
        ++ (bytes.now ++ drop (place + length bytes.now) out.old) }
{
    out[place..place + bytes.len()].copy_from_slice(bytes);
}

/// Copies made bytes into as much room as they take with the ranges of the input that are cut into them.
pub(crate) fn fill(out: &mut [u8], input: &[u8], made: &[u8], cuts: &[Cut])
    requires within { AreCuts (length input.now) cuts.now }
    requires shown { cut_made cuts.now ≤ length made.now }
    requires sized { length out.old ≡ length (cut_bytes input.now made.now cuts.now) }
    ensures { out.new ≡ cut_bytes input.now made.now cuts.now }
{
    let mut from = 0;
    let mut to = 0;
    let mut left = cuts;
    'cuts: while let Some((cut, behind)) = left.split_first() {
        let kept = &input[cut.start..cut.end];
        put_at(out, to, &made[from..from + cut.made]);
        put_at(out, to + cut.made, kept);
        from += cut.made;
        to += cut.made + kept.len();
        left = behind;
    }
    put_at(out, to, &made[from..]);
}

/// Grows bytes to so many, and takes memory for no more than these.
fn grow(bytes: &mut Vec<u8>, size: usize) -> Result<(), NoMemory>
    requires { length bytes.old.items ≤ size }
    ensures len { OnOk result (length bytes.new.items ≡ size) }
    ensures first { OnOk result (take (length bytes.old.items) bytes.new.items ≡ bytes.old.items) }
{
    match bytes.reserve_exact(size - bytes.len()) {
        Ok(()) => {}
        Err(_) => return Err(NoMemory),
    }
    match bytes.resize(size, 0) {
        Ok(()) => Ok(()),
        Err(_) => Err(NoMemory),
    }
}

/// Copies a kept range to where it ends at one place, and moves so many made bytes, which end at another, right in front of it.
fn put_cut(out: &mut [u8], from: usize, to: usize, made: usize, kept: &[u8])
    requires made { made ≤ from }
    requires apart { from + length kept.now ≤ to }
    requires within { to ≤ length out.old }
    ensures { out.new ≡ take (to - (length kept.now + made)) out.old
        ++ (take made (drop (from - made) out.old) ++ (kept.now ++ drop to out.old)) }
{
    let place = to - kept.len();
    out[place..to].copy_from_slice(kept);
    out.copy_within(from - made..from, place - made);
}

/// Moves made bytes apart, which are the first so many, and copies the ranges of the input that are cut into them between them.
/// The last range stands behind so many of them. It goes from the back to the front, so that none is lost before it is moved.
fn move_apart(out: &mut [u8], made: usize, last: usize, input: &[u8], cuts: &[Cut])
    requires within { AreCuts (length input.now) cuts.now }
    requires placed { last ≡ cut_made cuts.now }
    requires shown { (last ≤ made) × (made ≤ length out.old) }
    requires sized { length out.old ≡ length (cut_bytes input.now (take made out.old) cuts.now) }
    ensures { out.new ≡ cut_bytes input.now (take made out.old) cuts.now }
{
    let mut from = last;
    let mut to = out.len() - (made - last);
    out.copy_within(last..made, to);
    let mut left = cuts;
    'cuts: while let Some((cut, front)) = left.split_last() {
        let kept = &input[cut.start..cut.end];
        put_cut(out, from, to, cut.made, kept);
        from -= cut.made;
        to -= kept.len() + cut.made;
        left = front;
    }
}

/// The bytes of made bytes with the ranges of the input that are cut into them: so many, in the memory of the made ones. The last
/// range stands behind so many made ones.
pub(crate) fn joined_in_place(
    made: Vec<u8>,
    last: usize,
    input: &[u8],
    cuts: &[Cut],
    size: usize,
) -> Result<Vec<u8>, NoMemory>
    requires within { AreCuts (length input.now) cuts.now }
    requires placed { last ≡ cut_made cuts.now }
    requires shown { last ≤ length made.items }
    requires sized { size ≡ length (cut_bytes input.now made.items cuts.now) }
    ensures { IfOk result (λ out. out.items ≡ cut_bytes input.now made.items cuts.now) }
{
    let mut out = made;
    let len = out.len();
    grow(&mut out, size)?;
    move_apart(out.as_mut_slice(), len, last, input, cuts);
    Ok(out)
}
