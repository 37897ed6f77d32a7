// Which attribute words keep the rules.
use block::attribute::Attribute;

fn kept(word: u32) -> bool {
    Attribute(word).keeps_rules()
}

#[test]
fn types_go_with_length_codes(rt: HostRuntime) {
    assert!(rt; kept(0x0044_0001), "text is a list of bytes");
    assert!(rt; !kept(0x0041_0001), "text of two bytes");
    assert!(rt; !kept(0x0045_0001), "text of words");
    assert!(rt; kept(0x0051_0001), "an IDN has two bytes");
    assert!(rt; kept(0x0055_0001), "a list of IDNs");
    assert!(rt; !kept(0x0052_0001), "an IDN of four bytes");
    assert!(rt; !kept(0x0014_0001), "numbers of one byte");
    assert!(rt; kept(0x0022_0001), "a number of four bytes");
}

#[test]
fn a_command_is_two_bytes_of_binary(rt: HostRuntime) {
    assert!(rt; kept(0x0009_0001), "binary, two bytes");
    assert!(rt; !kept(0x000a_0001), "binary, four bytes");
    assert!(rt; !kept(0x0019_0001), "unsigned, two bytes");
    assert!(rt; !kept(0x000d_0001), "a list");
}

#[test]
fn other_fields_keep_to_their_values(rt: HostRuntime) {
    assert!(rt; !kept(0x0011_0000), "factor 0");
    assert!(rt; kept(0x0011_ffff), "the largest factor");
    assert!(rt; !kept(0x0091_0001), "bit 23");
    assert!(rt; !kept(0x8011_0001), "bit 31");
    assert!(rt; kept(0x7f11_0001), "decimals and write protection");
    assert!(rt; !kept(0x0010_0001), "no such length code");
    assert!(rt; !kept(0x0061_0001), "no such type");
}
