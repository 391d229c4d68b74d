ghost use Rattle.std.specs.Prelude.{◌≡◌, ◌+◌, ◌<◌, ◌^◌, ◌%◌, MatchOption, OnSome, false, length, true};
ghost use Rattle.lib_model.specs.Denotes.{byte_at};
ghost use Rattle.typelib_faults.specs.Faults.{Tries, annotation_end, annotations_fault, is_annotation};

use crate::numbers::half;
use typelib_faults::{ANNOTATION, BadTypelib};

/// The end of the private annotation at `place`, with its two strings, where it lies inside the
/// file.
fn private_end(bytes: &[u8], place: usize) -> Option<usize>
    requires within { place < length bytes.now }
    requires private { byte_at bytes.now place % 128 ≡ 1 }
    requires short { length bytes.now < 2 ^ 62 }
    ensures { MatchOption result (is_annotation bytes.now place ≡ false)
        (λ end. (is_annotation bytes.now place ≡ true) × (end ≡ annotation_end bytes.now place)) }
{
    if bytes.len() - place < 5 {
        return None;
    }
    let second = place + 3 + usize::from(half(bytes, place + 1));
    if second + 2 > bytes.len() {
        return None;
    }
    let end = second + 2 + usize::from(half(bytes, second));
    if end <= bytes.len() { Some(end) } else { None }
}

/// The end of the annotation at `place`, where one stands there and lies inside the file.
fn end_of_annotation(bytes: &[u8], place: usize) -> Option<usize>
    requires { length bytes.now < 2 ^ 62 }
    ensures inside { OnSome result (place < length bytes.now) }
    ensures is { MatchOption result (is_annotation bytes.now place ≡ false)
        (λ end. (is_annotation bytes.now place ≡ true) × (end ≡ annotation_end bytes.now place)) }
{
    if place >= bytes.len() {
        return None;
    }
    match bytes[place] % 128 {
        0 => Some(place + 1),
        1 => private_end(bytes, place),
        _ => None,
    }
}

/// The fault that no annotation stands at `place`.
fn bad_annotation(place: usize) -> BadTypelib
    ensures { result ≡ record { code = 5; at = place } }
{
    BadTypelib {
        code: ANNOTATION,
        at: place as u64,
    }
}

/// Tries the annotations, which begin at `from`.
#[tactic(auto, using(typelib_faults::proofs::HeaderLaws::notes_on, typelib_faults::proofs::HeaderLaws::notes_last, typelib_faults::proofs::HeaderLaws::notes_bad, typelib_faults::proofs::HeaderLaws::notes_over))]
pub fn annotations(bytes: &[u8], from: usize) -> Result<(), BadTypelib>
    requires { length bytes.now < 2 ^ 62 }
    ensures { Tries result (annotations_fault bytes.now (length bytes.now) from) }
{
    let mut place = from;
    for _ in 0..bytes.len() {
        match end_of_annotation(bytes, place) {
            Some(end) => {
                if bytes[place] >= 128 {
                    return Ok(());
                }
                place = end;
            }
            None => return Err(bad_annotation(place)),
        }
    }
    Err(bad_annotation(place))
}
