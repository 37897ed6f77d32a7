// IDN texts: what is read, what is refused, and that each IDN is read back from its own text.
use block::idn::{Idn, IdnFault};
use std::test::Fail;

#[test]
fn reads_idns(rt: HostRuntime) {
    assert_eq!(rt; Idn::parse(b"S-0-0127"), Ok(Idn(127)));
    assert_eq!(rt; Idn::parse(b"P-5-1073"), Ok(Idn(0xd431)));
    assert_eq!(rt; Idn::parse(b"S-0-0000"), Ok(Idn(0)));
    assert_eq!(rt; Idn::parse(b"P-7-4095"), Ok(Idn(0xffff)));
}

#[test]
fn refuses_other_texts(rt: HostRuntime) {
    assert_eq!(rt; Idn::parse(b"S-8-0001"), Err(IdnFault::Set));
    assert_eq!(rt; Idn::parse(b"S-0-4096"), Err(IdnFault::Number));
    assert_eq!(rt; Idn::parse(b""), Err(IdnFault::Form));
    assert_eq!(rt; Idn::parse(b"s-0-0127"), Err(IdnFault::Form));
    assert_eq!(rt; Idn::parse(b"S-0-127"), Err(IdnFault::Form));
    assert_eq!(rt; Idn::parse(b"S-0-01270"), Err(IdnFault::Form));
    assert_eq!(rt; Idn::parse(b"S-0-0127\n"), Err(IdnFault::Form));
    assert_eq!(rt; Idn::parse(b"S 0-0127"), Err(IdnFault::Form));
    assert_eq!(rt; Idn::parse(b"S-x-0127"), Err(IdnFault::Form));
}

#[test]
fn parses_texts(rt: HostRuntime) {
    assert_eq!(rt; "P-5-1073".parse::<Idn>(), Ok(Idn(0xd431)));
    assert_eq!(rt; "S-8-0001".parse::<Idn>(), Err(IdnFault::Set));
    assert_eq!(rt; "".parse::<Idn>(), Err(IdnFault::Form));
}

#[test]
fn says_what_is_wrong_with_a_text(rt: HostRuntime) -> Result<(), Fail> {
    let heap = rt.alloc();
    for (fault, text) in [
        (IdnFault::Form, "not of the form S-0-0127"),
        (IdnFault::Set, "the set is above 7"),
        (IdnFault::Number, "the number is above 4095"),
    ] {
        assert_eq!(rt; format!(in heap; "{fault}")?.as_str(), text);
    }
    Ok(())
}

#[test]
fn shows_idns(rt: HostRuntime) -> Result<(), Fail> {
    let heap = rt.alloc();
    let standard = Idn(127);
    let product = Idn(0xd431);
    assert_eq!(rt; format!(in heap; "{standard}")?.as_str(), "S-0-0127");
    assert_eq!(rt; format!(in heap; "{product}")?.as_str(), "P-5-1073");
    Ok(())
}

// stays: a range, since every number is an IDN.
#[test]
fn reads_back_every_idn(rt: HostRuntime) -> Result<(), Fail> {
    let heap = rt.alloc();
    for n in 0..=u16::MAX {
        let idn = Idn(n);
        let text = format!(in heap; "{idn}")?;
        assert_eq!(rt; Idn::parse(text.as_bytes()), Ok(idn));
    }
    Ok(())
}
