use oat_a64::Inst;
use oat_asm::{BranchForm, Item, Note, assemble};
use oat_build::Listed;
use std::test::Fail;

/// MOVZ X9,#5; then at 10004 a loop that ends where X9 is 0; behind it a label's
/// address, and branches of the other forms. The words are those of the Arm A64 manual.
#[test]
fn a_loop_is_laid_out(rt: HostRuntime) -> Result<(), Fail> {
    let listed = [
        Item::Inst(Inst::Movz {
            rd: 9,
            hw: 0,
            imm: 5,
        }),
        Item::Label(1),
        Item::Note(Note::Check),
        Item::BranchTo {
            form: BranchForm::Cbz(9),
            label: 2,
        },
        Item::Inst(Inst::SubImm {
            rd: 9,
            rn: 9,
            imm: 1,
        }),
        Item::BranchTo {
            form: BranchForm::B,
            label: 1,
        },
        Item::Label(2),
        Item::AddressOf {
            register: 3,
            label: 1,
        },
        Item::BranchTo {
            form: BranchForm::Cond(0),
            label: 1,
        },
        Item::BranchTo {
            form: BranchForm::Bl,
            label: 2,
        },
        Item::BranchTo {
            form: BranchForm::Cbnz(31),
            label: 3,
        },
        Item::Inst(Inst::Nop),
        Item::Label(3),
    ];
    let items = Listed::from_vec(Vec::from_slice(rt.alloc(), &listed)?);
    let assembled = assemble(rt.alloc(), &items, 0x10000).ok().ok_or("no room")?;
    let code = [
        0xD280_00A9,
        0xB400_0069,
        0xD100_0529,
        0x17FF_FFFE,
        0xD280_0083,
        0xF2A0_0023,
        0x54FF_FF60,
        0x97FF_FFFD,
        0xB500_005F,
        0xD503_201F,
    ];
    assert!(rt; assembled.code.as_slice() == code.as_slice());
    let labels = assembled.labels.as_slice();
    assert!(rt; labels.len() == 3);
    for (label, wanted) in labels
        .iter()
        .zip([(1, 0x10004), (2, 0x10010), (3, 0x10028)])
    {
        assert!(rt; (label.label, label.at) == wanted);
    }
    let notes = assembled.notes.as_slice();
    assert!(rt; notes.len() == 1);
    for note in notes {
        assert!(rt; matches!(note.note, Note::Check) && note.at == 0x10004);
    }
    Ok(())
}
