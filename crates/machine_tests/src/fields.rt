// The fields that instructions may have.

use rv_encode::{Instr, fits};

#[test]
fn fields_out_of_range(rt: HostRuntime) {
    let fields = 0x40_0000;
    for (instr, within) in [
        (
            Instr::Add {
                rd: 31,
                rs1: 31,
                rs2: 31,
            },
            true,
        ),
        (
            Instr::Add {
                rd: 32,
                rs1: 0,
                rs2: 0,
            },
            false,
        ),
        (
            Instr::Add {
                rd: 0,
                rs1: 32,
                rs2: 0,
            },
            false,
        ),
        (
            Instr::Add {
                rd: 0,
                rs1: 0,
                rs2: 32,
            },
            false,
        ),
        (
            Instr::Addi {
                rd: 0,
                rs1: 0,
                imm: 2048,
            },
            false,
        ),
        (
            Instr::Addi {
                rd: 0,
                rs1: 0,
                imm: -2049,
            },
            false,
        ),
        (
            Instr::Srai {
                rd: 0,
                rs1: 0,
                imm: 32,
            },
            false,
        ),
        (
            Instr::Sb {
                rs1: 0,
                rs2: 0,
                imm: 2048,
            },
            false,
        ),
        (
            Instr::Bne {
                rs1: 0,
                rs2: 0,
                imm: 4096,
            },
            false,
        ),
        (
            Instr::Bne {
                rs1: 0,
                rs2: 0,
                imm: -4098,
            },
            false,
        ),
        (
            Instr::Bne {
                rs1: 0,
                rs2: 0,
                imm: 3,
            },
            false,
        ),
        (
            Instr::Lui {
                rd: 0,
                imm: 0x10_0000,
            },
            false,
        ),
        (
            Instr::Jal {
                rd: 0,
                imm: 0x10_0000,
            },
            false,
        ),
        (Instr::Jal { rd: 0, imm: -3 }, false),
        (Instr::Fence { fields }, false),
        (Instr::Ebreak, true),
    ] {
        assert_eq!(rt; fits(instr), within);
    }
}
