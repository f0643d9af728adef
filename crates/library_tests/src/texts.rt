// Lines, words and bytes in hexadecimal.
use lines::{
    LineFault, byte_of, bytes_of, decimal_of, lines_in, next_line, next_word, push_bytes, words_in,
};
use std::test::Fail;

#[test]
fn words_of_a_line(rt: HostRuntime) -> Result<(), Fail> {
    let (line, rest) = next_line(b"  f FA\r\nr").ok_or("no line")?;
    assert_eq!(rt; line, b"  f FA".as_slice());
    assert_eq!(rt; rest, b"r".as_slice());
    let (word, behind) = next_word(line).ok_or("no word")?;
    assert_eq!(rt; word, b"f".as_slice());
    assert_eq!(rt; behind, b" FA".as_slice());
    assert_eq!(rt; next_word(b"   "), None);
    assert_eq!(rt; next_line(b""), None);
    assert_eq!(rt; words_in(b"  f FA").count(), 2);
    assert_eq!(rt; lines_in(b"  f FA\r\nr").count(), 2);
    Ok(())
}

#[test]
fn numbers_of_words(rt: HostRuntime) {
    assert_eq!(rt; byte_of(b"fA"), Some(0xFA));
    assert_eq!(rt; byte_of(b"G0"), None);
    assert_eq!(rt; byte_of(b"123"), None);
    assert_eq!(rt; decimal_of(b"18446744073709551615"), Some(u64::MAX));
    assert_eq!(rt; decimal_of(b"18446744073709551616"), None);
    assert_eq!(rt; decimal_of(b""), None);
}

#[test]
fn bytes_of_a_line(rt: HostRuntime) -> Result<(), Fail> {
    let bytes = bytes_of(rt.alloc(), b" FA 0b ")?;
    assert_eq!(rt; bytes.as_slice(), [0xFAu8, 0x0B].as_slice());
    assert_eq!(rt;
        bytes_of(rt.alloc(), b"FA 1").err(),
        Some(LineFault::NotAByte)
    );
    let mut text = String::new(rt.alloc());
    push_bytes(&mut text, bytes.as_slice())?;
    assert_eq!(rt; text.as_str(), " FA 0B");
    Ok(())
}
