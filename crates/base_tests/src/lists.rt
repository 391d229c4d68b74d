//! Lists of bytes and of values, which grow at their end.

use crate::cases::check;
use xp_base::{Bytes, List};

/// A piece that is added, and the whole then.
const PIECES: [(&str, &str); 3] = [("", "ab"), ("cd", "abcd"), ("e", "abcde")];

#[test]
fn bytes_are_added(rt: HostRuntime) {
    let mut bytes = Bytes::copy(rt.alloc(), b"ab").expect(&rt, "bytes");
    for (piece, whole) in &PIECES {
        bytes.append(piece.as_bytes()).expect(&rt, whole);
        check(&rt, whole, bytes.as_slice() == whole.as_bytes());
    }
}

/// Whether a list is these values, of which there are at most two, as each of its calls tells.
fn is_these(list: &List<u8>, values: &[u8]) -> bool {
    for index in 0..3 {
        if list.get(index) != values.get(index) {
            return false;
        }
    }
    list.as_slice() == values && list.len() == values.len() && list.is_empty() == values.is_empty()
}

#[test]
fn values_are_added(rt: HostRuntime) {
    let mut list = List::new(rt.alloc());
    assert!(rt; is_these(&list, &[]));
    list.push(7).expect(&rt, "seven");
    assert!(rt; is_these(&list, &[7]));
    list.push(9).expect(&rt, "nine");
    assert!(rt; is_these(&list, &[7, 9]));
}
