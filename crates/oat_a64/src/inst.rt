/// An instruction, as the Arm A64 manual's base instructions name its fields.
///
/// Registers are numbers up to 31. `hw` is the quarter of a wide move, `cond` a
/// condition number, and `imm` the field's own number (loads and stores count
/// it in eights). An offset counts words from the branch itself.
#[derive(Clone, Copy)]
pub enum Inst {
    AddImm { rd: u8, rn: u8, imm: u16 },
    SubImm { rd: u8, rn: u8, imm: u16 },
    SubsImm { rd: u8, rn: u8, imm: u16 },
    AddReg { rd: u8, rn: u8, rm: u8, amount: u8 },
    SubReg { rd: u8, rn: u8, rm: u8 },
    SubsReg { rd: u8, rn: u8, rm: u8 },
    AndReg { rd: u8, rn: u8, rm: u8 },
    OrrReg { rd: u8, rn: u8, rm: u8 },
    EorReg { rd: u8, rn: u8, rm: u8 },
    Madd { rd: u8, rn: u8, rm: u8, ra: u8 },
    Msub { rd: u8, rn: u8, rm: u8, ra: u8 },
    Udiv { rd: u8, rn: u8, rm: u8 },
    Sdiv { rd: u8, rn: u8, rm: u8 },
    Lslv { rd: u8, rn: u8, rm: u8 },
    Lsrv { rd: u8, rn: u8, rm: u8 },
    Asrv { rd: u8, rn: u8, rm: u8 },
    Movz { rd: u8, hw: u8, imm: u16 },
    Movk { rd: u8, hw: u8, imm: u16 },
    Csinc { rd: u8, rn: u8, rm: u8, cond: u8 },
    Ldr { rt: u8, rn: u8, imm: u16 },
    Str { rt: u8, rn: u8, imm: u16 },
    LdrReg { rt: u8, rn: u8, rm: u8 },
    StrReg { rt: u8, rn: u8, rm: u8 },
    B { offset: i32 },
    Bl { offset: i32 },
    BCond { cond: u8, offset: i32 },
    Cbz { rt: u8, offset: i32 },
    Cbnz { rt: u8, offset: i32 },
    Blr { rn: u8 },
    Ret { rn: u8 },
    Svc { imm: u16 },
    Brk { imm: u16 },
    Nop,
}
