use crate::decode::decode;
use crate::record::{Record, Undecoded};

const KEY: &[u8; 13] = b"K\0\0\0\x02\0\0\0\x01\0\0\0\x02";

const CONTENT: &[u8; 13] = b"C\0\0\0\x04\0\0\0\x01\0\x05\x0b\x0c";

const OUT: &[u8; 13] = b"E\0\0\0\x07\xff\xff\xff\xfe\x09\x0a\x0b\x0c";

// Bytes that begin with `front`; each other byte is the number of its place.
fn bytes(front: &[u8; 13]) -> [u8; 4200] {
    std::array::from_fn(|i| front.get(i).copied().unwrap_or((i % 251) as u8))
}

#[test]
fn decodes(rt: HostRuntime) {
    let key = bytes(KEY);
    let key_record = Record::Key {
        node: 2,
        number: 1,
        under: 2,
        sealed: &key[13..61],
    };
    assert_eq!(rt; decode(2, &key[..63]), Ok((key_record, &key[61..63])));
    let content = bytes(CONTENT);
    let content_record = Record::Content {
        node: 4,
        number: 1,
        sealed: &content[11..32],
    };
    assert_eq!(rt;
        decode(2, &content[..34]),
        Ok((content_record, &content[32..34]))
    );
    let out = bytes(OUT);
    let out_record = Record::Out {
        node: 7,
        next: 4_294_967_294,
    };
    assert_eq!(rt; decode(2, &out[..11]), Ok((out_record, &out[9..11])));
}

#[test]
fn refuses_too_many_levels(rt: HostRuntime) {
    let bytes = bytes(KEY);
    let (front, _) = bytes.split_at(63);
    assert_eq!(rt; decode(21, front), Err(Undecoded::Other));
}

#[test]
fn ends_early(rt: HostRuntime) {
    let cut = [(KEY, 0), (KEY, 60), (CONTENT, 10), (CONTENT, 31), (OUT, 8)];
    for (front, len) in cut {
        assert_eq!(rt; decode(2, &bytes(front)[..len]), Err(Undecoded::Ends));
    }
}

#[test]
fn refuses(rt: HostRuntime) {
    let others = [
        b"X\0\0\0\x02\0\0\0\x01\0\0\0\x02",
        b"K\0\0\0\x00\0\0\0\x01\0\0\0\x02",
        b"K\0\0\0\x01\0\0\0\x01\0\0\0\x02",
        b"K\0\0\0\x08\0\0\0\x01\0\0\0\x02",
        b"K\0\0\0\x02\0\0\0\x00\0\0\0\x02",
        b"K\0\0\0\x02\0\0\0\x02\0\0\0\x02",
        b"K\0\0\0\x02\0\0\0\x01\xff\xff\xff\xff",
        b"C\0\0\0\x03\0\0\0\x01\0\x05\x0b\x0c",
        b"C\0\0\0\x08\0\0\0\x01\0\x05\x0b\x0c",
        b"C\0\0\0\x04\0\0\0\x00\0\x05\x0b\x0c",
        b"C\0\0\0\x04\xff\xff\xff\xff\0\x05\x0b\x0c",
        b"C\0\0\0\x04\0\0\0\x01\0\0\x0b\x0c",
        b"C\0\0\0\x04\0\0\0\x01\x10\x01\x0b\x0c",
        b"E\0\0\0\x03\0\0\0\x01\0\0\0\x02",
        b"E\0\0\0\x04\0\0\0\x00\0\0\0\x02",
    ];
    for front in others {
        assert_eq!(rt; decode(2, &bytes(front)), Err(Undecoded::Other));
    }
}
