//! Streams of frames in pieces, and columns. The columns of the line with U+10400 are those of the protocol's own page on positions.

use mx_frames::{Frames, add_frame, column_of, feed, place_of, start, wanted};
use mx_word::Bytes;
use std::alloc::Global;

/// How many frames a stream has in two pieces of which the first has so many bytes, how many bytes their bodies have, and how many
/// more may be asked for.
fn counts(alloc: Global, stream: &[u8], cut: usize) -> Option<(usize, usize, u64)> {
    let mut frames = Frames::new(alloc);
    if cut > stream.len() {
        return None;
    }
    let (front, others) = stream.split_at(cut);
    let coming = feed(alloc, &mut frames, start(alloc), front).ok()?;
    let coming = feed(alloc, &mut frames, coming, others).ok()?;
    let mut length = 0usize;
    for frame in frames.as_slice() {
        length = length.saturating_add(frame.body.as_slice().len());
    }
    Some((frames.as_slice().len(), length, wanted(&coming)))
}

/// The frame of a body.
fn framed(alloc: Global, body: &[u8]) -> Option<Bytes> {
    let mut stream = Bytes::new(alloc);
    add_frame(&mut stream, body).ok()?;
    Some(stream)
}

/// Two frames, and the front of a third one.
const STREAM: &[u8] =
    b"Content-Length: 2\r\n\r\n{}Content-Type: x\r\ncontent-length:3 \r\n\r\n[1]Content-Length: 7\r\n\r\nab";

/// A header that says no length.
const NO_LENGTH: &[u8] = b"Content-Type: x\r\n\r\n{}";

/// A body of more than 2^26 bytes.
const LARGE: &[u8] = b"Content-Length: 67108865\r\n\r\n";

/// `a`, U+10400 and `b`.
const LINE: &[u8] = b"a\xf0\x90\x90\x80b";

#[test]
fn frames_are_read_in_pieces(rt: HostRuntime) {
    assert_eq!(rt; counts(rt.alloc(), STREAM, 0), Some((2, 5, 5)));
    assert_eq!(rt; counts(rt.alloc(), STREAM, 20), Some((2, 5, 5)));
    assert_eq!(rt; counts(rt.alloc(), STREAM, 40), Some((2, 5, 5)));
}

#[test]
fn headers_that_are_none(rt: HostRuntime) {
    assert_eq!(rt; counts(rt.alloc(), NO_LENGTH, 0), Some((0, 0, 0)));
    assert_eq!(rt; counts(rt.alloc(), LARGE, 5), Some((0, 0, 0)));
}

#[test]
fn frames_are_written(rt: HostRuntime) {
    match framed(rt.alloc(), b"null") {
        None => assert!(rt; false),
        Some(stream) => {
            assert_eq!(rt;
                stream.as_slice(),
                b"Content-Length: 4\r\n\r\nnull".as_slice()
            );
        }
    }
}

#[test]
fn columns_count_units(rt: HostRuntime) {
    assert_eq!(rt; column_of(LINE, 1), 1);
    assert_eq!(rt; column_of(LINE, 5), 3);
    assert_eq!(rt; place_of(LINE, 3), 5);
    assert_eq!(rt; place_of(LINE, 9), 6);
}
