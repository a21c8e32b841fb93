use crate::write_image_header;

#[test]
fn writes_the_header_of_an_image(rt: HostRuntime) {
    let mut out = [0xAA; 10];
    write_image_header(2, 0x03F0, &mut out);
    assert_eq!(rt; out, [1, 0, 0, 2, 0xF0, 0x03, 0, 0, 0xAA, 0xAA]);
}
