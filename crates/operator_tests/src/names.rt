// Names, by their bytes, and the operators' names and widths.

use operator_meaning::{OPERATORS, Op, arity, gives, name, of_name, takes};
use sat_base::{Name, Width};
use std::test::Fail;

#[test]
fn a_name_is_its_bytes(rt: HostRuntime) -> Result<(), Fail> {
    let own = Name::from_slice(rt.alloc(), b"L_mac")?;
    assert_eq!(rt; own.as_bytes(), b"L_mac".as_slice());
    for (other, same) in [
        ("L_mac", true),
        ("L_max", false),
        ("L_ma", false),
        ("", false),
    ] {
        let other = Name::from_slice(rt.alloc(), other.as_bytes())?;
        assert_eq!(rt; own == other, same);
    }
    Ok(())
}

#[test]
fn names_and_widths(rt: HostRuntime) {
    for op in &OPERATORS {
        assert_eq!(rt; of_name(name(*op)), Some(*op), "{op:?}");
    }
    assert_eq!(rt; of_name("round_fx"), Some(Op::Round));
    for text in ["", "ad", "addd", "l_mac", "round_", "move16"] {
        assert_eq!(rt; of_name(text), None, "{text}");
    }
    assert_eq!(rt; arity(Op::MsuR), 3);
    assert_eq!(rt; takes(Op::LShl, 0), Width::W32);
    assert_eq!(rt; takes(Op::LShl, 1), Width::W16);
    assert_eq!(rt; gives(Op::NormL), Width::W16);
    assert_eq!(rt; gives(Op::LMac), Width::W32);
}
