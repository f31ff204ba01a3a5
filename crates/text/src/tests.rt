// What is put behind a text of fixed capacity.
use super::*;
use arrayvec::ArrayString;

#[test]
fn numbers_behind_a_text_of_fixed_capacity(rt: HostRuntime) {
    let mut text = ArrayString::<64>::new();
    put_decimal(&mut text, 0);
    put_decimal(&mut text, 18446744073709551615);
    put_hexadecimal(&mut text, &[0x4f, 0x0b, 0xff]);
    assert_eq!(rt; text.as_str(), "0184467440737095516154f0bff");
}
