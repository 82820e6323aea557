// Images on the machine, against values that were worked out by hand from the definitions of the operators.

use rv_emulator::{Machine, Pause};
use sat_compile::compile;
use std::alloc::Global;
use std::test::Fail;

/// The instructions that a run may execute.
const BUDGET: u64 = 1_000_000;

/// What a source is to do: the samples that it writes, Overflow and the count at its end, and its sites.
#[derive(Clone, Copy)]
struct Expected<'a> {
    samples: &'a [i16],
    overflow: i32,
    count: u64,
    sites: usize,
}

// Compiles a source that is a frame around statements, runs its image, and compares.
fn agrees(alloc: Global, statements: &str, expected: &Expected<'_>) -> Result<bool, Fail> {
    let source = format!(in alloc; "int main(void){{{statements}return 0;}}")?;
    source_agrees(alloc, &source, expected)
}

// Compiles a source, runs its image, and compares.
fn source_agrees(alloc: Global, source: &str, expected: &Expected<'_>) -> Result<bool, Fail> {
    let built = match compile(alloc, source.as_bytes()) {
        Ok(built) => built,
        Err(refusal) => return Err(Fail::from(refusal)),
    };
    let mut machine = Machine::load(alloc, &built.image, &[])?;
    let mut left = BUDGET;
    let mut same = built.image.sites.len() == expected.sites;
    for sample in expected.samples {
        same &= machine.run(&mut left) == Pause::Wrote(*sample);
    }
    let ended = Pause::Ended {
        overflow: expected.overflow,
        count: expected.count,
    };
    Ok(same && machine.run(&mut left) == ended)
}

fn writes(samples: &[i16], overflow: i32, count: u64, sites: usize) -> Expected<'_> {
    Expected {
        samples,
        overflow,
        count,
        sites,
    }
}

#[test]
fn images_run_as_their_sources(rt: HostRuntime) -> Result<(), Fail> {
    let rows: [(&str, Expected); 16] = [
        ("", writes(&[], 0, 0, 0)),
        ("sample_out(7);", writes(&[7], 0, 0, 0)),
        (
            "sample_out(32767);sample_out(0);",
            writes(&[32767, 0], 0, 0, 0),
        ),
        ("sample_out(add(1,2));", writes(&[3], 0, 1, 1)),
        ("sample_out(sub(1,2));", writes(&[-1], 0, 1, 1)),
        ("sample_out(add(32767,1));", writes(&[32767], 1, 1, 1)),
        // The least number is reached, and then passed.
        (
            "sample_out(sub(sub(0,32767),1));",
            writes(&[-32768], 0, 2, 2),
        ),
        (
            "sample_out(sub(sub(0,32767),2));",
            writes(&[-32768], 1, 2, 2),
        ),
        // Overflow is set in one operand only.
        (
            "sample_out(sub(add(32767,1),32767));",
            writes(&[0], 1, 2, 2),
        ),
        (
            "sample_out(sub(0,add(32767,1)));",
            writes(&[-32767], 1, 2, 2),
        ),
        // Left operands are kept.
        ("sample_out(add(sub(5,9),sub(9,5)));", writes(&[0], 0, 3, 3)),
        (
            "sample_out(sub(100,sub(50,sub(20,7))));",
            writes(&[63], 0, 3, 3),
        ),
        (
            "sample_out(sub(sub(100,1),sub(50,sub(20,7))));",
            writes(&[62], 0, 4, 4),
        ),
        // Overflow stays set.
        (
            "sample_out(add(32767,32767));sample_out(sub(3,5));",
            writes(&[32767, -2], 1, 2, 2),
        ),
        // Calls 16 deep: at the left, and at the right with a call as each left operand.
        (
            "sample_out(add(add(add(add(add(add(add(add(add(add(add(add(add(add(add(add(\
            1,1),1),1),1),1),1),1),1),1),1),1),1),1),1),1),1));",
            writes(&[17], 0, 16, 16),
        ),
        (
            "sample_out(sub(add(1,1),sub(add(2,2),sub(add(3,3),sub(add(4,4),sub(add(5,5),sub(add(6,6),\
            sub(add(7,7),sub(add(8,8),sub(add(9,9),sub(add(10,10),sub(add(11,11),sub(add(12,12),\
            sub(add(13,13),sub(add(14,14),sub(add(15,15),sub(16,17)))))))))))))))));",
            writes(&[17], 0, 31, 31),
        ),
    ];
    for (statements, expected) in &rows {
        assert!(rt; agrees(rt.alloc(), statements, expected)?, "{statements:?}");
    }
    Ok(())
}

#[test]
fn defined_names_are_their_values(rt: HostRuntime) -> Result<(), Fail> {
    let source = "#define A 5\nint main(void){sample_out(add(A, 1));return 0;}";
    assert!(rt; source_agrees(rt.alloc(), source, &writes(&[6], 0, 1, 1))?);
    let brackets = "int main(void){sample_out((add((A), ((2)))));return (0);}";
    let source = format!(in rt.alloc(); "/* five */ #define A 0x5\n{brackets}")?;
    assert!(rt; source_agrees(rt.alloc(), &source, &writes(&[7], 0, 1, 1))?);
    Ok(())
}

#[test]
fn a_hundred_statements(rt: HostRuntime) -> Result<(), Fail> {
    let alloc = rt.alloc();
    let mut statements = String::new(alloc);
    let mut samples = Vec::new(alloc);
    for number in 0..100_i16 {
        statements.push_str(&format!(in alloc; "sample_out(add({number},1));")?)?;
        samples.push(number + 1)?;
    }
    assert!(rt; agrees(alloc, &statements, &writes(&samples, 0, 100, 100))?);
    Ok(())
}

// The bytes of the data memory of a source's image.
fn memory_of(alloc: Global, statements: &str) -> Result<usize, Fail> {
    let source = format!(in alloc; "int main(void){{{statements}return 0;}}")?;
    match compile(alloc, source.as_bytes()) {
        Ok(built) => Ok(built.image.memory.len()),
        Err(refusal) => Err(Fail::from(refusal)),
    }
}

#[test]
fn each_level_below_the_outermost_call_has_a_word(rt: HostRuntime) -> Result<(), Fail> {
    for (statements, bytes) in [
        ("", 0),
        ("sample_out(7);", 0),
        ("sample_out(add(1,2));", 0),
        ("sample_out(add(1,sub(2,3)));sample_out(4);", 4),
        (
            "sample_out(sub(1,2));sample_out(add(add(1,sub(2,3)),4));",
            8,
        ),
    ] {
        assert_eq!(rt; memory_of(rt.alloc(), statements)?, bytes, "{statements:?}");
    }
    Ok(())
}
