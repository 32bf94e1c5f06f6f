//! The worked record: a commit of transaction 5 at the log's first place.

use crate::decode::decode;
use crate::encode::encode;
use crate::record::{Body, Record};
use crate::size::size;
use dby_types::number::Lsn;

/// The bytes that the format's document gives, behind the first eight bytes of their SHA-256.
const STORED: [u8; 40] = [
    0xcc, 0x7d, 0x38, 0x1a, 0xdd, 0x68, 0x08, 0xeb, 0x00, 0x00, 0x00, 0x28, 0x00, 0x00, 0x00, 0x01,
    0x00, 0x00, 0x00, 0x00, 0x06, 0x00, 0x00, 0x00, 0x00, 0x00, 0x00, 0x00, 0x00, 0x00, 0x00, 0x05,
    0x00, 0x00, 0x00, 0x00, 0x00, 0x00, 0x00, 0x00,
];

const AT: Lsn = Lsn {
    segment: 1,
    offset: 0,
};

const COMMIT: Record<'static> = Record {
    txn: 5,
    back: Lsn {
        segment: 0,
        offset: 0,
    },
    body: Body::Commit,
};

#[test]
fn commit_is_written(rt: HostRuntime) {
    let mut buffer = [0xee; 40];
    let n = encode(&COMMIT, AT, &mut buffer);
    assert!(rt; n == 40);
    assert!(rt; size(&COMMIT) == 40);
    assert!(rt; buffer == STORED);
}

#[test]
fn commit_is_read(rt: HostRuntime) {
    assert!(rt; decode(&STORED, AT) == Some((COMMIT, 40)));
    assert!(rt; decode(&STORED[..39], AT).is_none());
}

#[test]
fn no_other_place_and_no_other_byte(rt: HostRuntime) {
    let elsewhere = Lsn {
        segment: 2,
        offset: 0,
    };
    assert!(rt; decode(&STORED, elsewhere).is_none());
    for i in 0..40 {
        let mut bytes = STORED;
        bytes[i] ^= 1;
        assert!(rt; decode(&bytes, AT).is_none());
    }
}
