//! Sets and refusals as text.
use scheme::Refusal;
use sets::Set;
use std::test::Fail;

#[test]
fn sets_in_braces(rt: HostRuntime) -> Result<(), Fail> {
    let heap = rt.alloc();
    assert_eq!(rt; Set::empty().to_string(heap)?.as_str(), "{}");
    assert_eq!(rt;
        Set::of(&[5, 1, 64, 2]).to_string(heap)?.as_str(),
        "{1,2,5}"
    );
    assert_eq!(rt; Set::of(&[63, 0]).to_string(heap)?.as_str(), "{0,63}");
    Ok(())
}

#[test]
fn refusals_in_words(rt: HostRuntime) -> Result<(), Fail> {
    let heap = rt.alloc();
    assert_eq!(rt;
        Refusal::OutOfReach.to_string(heap)?.as_str(),
        "out of reach"
    );
    assert_eq!(rt; Refusal::OutOfReach.number(), 9);
    Ok(())
}
