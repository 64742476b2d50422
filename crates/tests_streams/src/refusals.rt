use std::test::Fail;
use wire::Refusal;

#[test]
fn shows_number_and_name(rt: HostRuntime) -> Result<(), Fail> {
    let text = format!(in rt.alloc(); "refused {}", Refusal::ExtentFull)?;
    assert_eq!(rt; text.as_str(), "refused 7 ExtentFull");
    Ok(())
}
