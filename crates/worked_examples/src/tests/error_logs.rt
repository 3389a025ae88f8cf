// Pages of log 10h, worked out by hand from ACS-3: bits 4:0 of byte 0 are the tag, bit 7 is NQ; byte 2 is the status
// and byte 3 the error.
use error_recovery::parse_log;

/// Tag 1 with status 41h and error 40h, and a last byte.
fn page(first: u8, last: u8) -> [u8; 512] {
    let mut page = [0; 512];
    page[0] = first;
    page[2] = 0x41;
    page[3] = 0x40;
    page[511] = last;
    page
}

#[test]
fn pages_of_the_log_are_read(rt: HostRuntime) {
    let failed = Some((1, 0x41, 0x40));
    assert_eq!(rt; parse_log(&page(0x01, 0x7e)), failed);
    assert_eq!(rt; parse_log(&page(0x01, 0x7f)), None);
    assert_eq!(rt; parse_log(&page(0x81, 0xfe)), None);
    assert_eq!(rt; parse_log(&page(0x61, 0x1e)), failed);
    // Where all bytes are zero, their sum is right and NQ is clear.
    assert_eq!(rt; parse_log(&[0; 512]), Some((0, 0, 0)));
}
