use super::*;
use c_typed::Callee;
use operator_meaning::Op;
use sat_base::Width;
use sat_base::Width::{W16, W32};

/// What the name calls, the number of its arguments, and what it gives.
fn read(name: &str) -> Option<(Callee, u32, Option<Width>)> {
    match callee_named(name.as_bytes()) {
        Some(callee) => Some((callee, arity(callee), gives(callee))),
        None => None,
    }
}

#[test]
fn predefined_names_are_told(rt: HostRuntime) {
    for (name, told) in [
        ("add", Some((Callee::Operator(Op::Add), 2, Some(W16)))),
        ("L_mac", Some((Callee::Operator(Op::LMac), 3, Some(W32)))),
        (
            "round_fx",
            Some((Callee::Operator(Op::Round), 1, Some(W16))),
        ),
        ("move16", Some((Callee::Move16, 0, None))),
        ("test", Some((Callee::Test, 0, None))),
        ("sample_in", Some((Callee::SampleIn, 0, Some(W16)))),
        ("sample_left", Some((Callee::SampleLeft, 0, Some(W32)))),
        ("sample_out", Some((Callee::SampleOut, 1, None))),
        ("sample", None),
        ("main", None),
        ("", None),
    ] {
        assert_eq!(rt; read(name), told, "{name}");
    }
}
