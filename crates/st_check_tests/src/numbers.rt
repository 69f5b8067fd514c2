//! The spellings of numbers in texts.

use st_text::{read_integer, read_natural};

const NATURALS: [(&[u8], Option<u128>); 7] = [
    (b"0", Some(0)),
    (b"10", Some(10)),
    (b"340282366920938463463374607431768211455", Some(u128::MAX)),
    (b"340282366920938463463374607431768211456", None),
    (b"01", None),
    (b"0x1", None),
    (b"-1", None),
];

const INTEGERS: [(&[u8], bool); 5] = [
    (b"-5", true),
    (b"5", true),
    (b"-0", false),
    (b"-05", false),
    (b"--5", false),
];

#[test]
fn numbers_have_one_spelling(rt: HostRuntime) {
    for (word, number) in &NATURALS {
        assert!(rt; read_natural(*word) == *number);
    }
    for (word, is_read) in &INTEGERS {
        assert!(rt; read_integer(*word).is_some() == *is_read);
    }
}
