//! Instructions to and from words, by one table of rows.

ghost use Rattle.std.specs.Prelude.{◌≡◌, ℕ, ◌+◌, ◌^◌, ◌<◌, ◌≤◌, ◌↔◌, IsTrue, IfSome, find};
ghost use Rattle.oat_a64.specs.Table.{is_condition, FitsSigned, twos_complement, IsInRange, Word};
ghost use Rattle.oat_a64.specs.Fetch.{from_twos_complement, candidates, is_word, inst_of};

use crate::inst::Inst;
use crate::places::{
    Cond, Hw, Imm6, Imm12, Imm16, Imm19, Imm26, LowCond, Places, Ra, Rd, Rm, Rn, is_condition,
    twos_complement,
};

/// The instruction table: each form with its base word, and for each of its
/// fields the place where it stands. `$with` writes the code.
macro_rules! table {
    ($with:ident $value:expr) => {
        $with! { $value;
            AddImm 0x9100_0000 { rd: rd, rn: rn, imm: imm12 }
            SubImm 0xD100_0000 { rd: rd, rn: rn, imm: imm12 }
            SubsImm 0xF100_0000 { rd: rd, rn: rn, imm: imm12 }
            AddReg 0x8B00_0000 { rd: rd, rn: rn, rm: rm, amount: imm6 }
            SubReg 0xCB00_0000 { rd: rd, rn: rn, rm: rm }
            SubsReg 0xEB00_0000 { rd: rd, rn: rn, rm: rm }
            AndReg 0x8A00_0000 { rd: rd, rn: rn, rm: rm }
            OrrReg 0xAA00_0000 { rd: rd, rn: rn, rm: rm }
            EorReg 0xCA00_0000 { rd: rd, rn: rn, rm: rm }
            Madd 0x9B00_0000 { rd: rd, rn: rn, rm: rm, ra: ra }
            Msub 0x9B00_8000 { rd: rd, rn: rn, rm: rm, ra: ra }
            Udiv 0x9AC0_0800 { rd: rd, rn: rn, rm: rm }
            Sdiv 0x9AC0_0C00 { rd: rd, rn: rn, rm: rm }
            Lslv 0x9AC0_2000 { rd: rd, rn: rn, rm: rm }
            Lsrv 0x9AC0_2400 { rd: rd, rn: rn, rm: rm }
            Asrv 0x9AC0_2800 { rd: rd, rn: rn, rm: rm }
            Movz 0xD280_0000 { rd: rd, hw: hw, imm: imm16 }
            Movk 0xF280_0000 { rd: rd, hw: hw, imm: imm16 }
            Csinc 0x9A80_0400 { rd: rd, rn: rn, rm: rm, cond: cond }
            Ldr 0xF940_0000 { rt: rd, rn: rn, imm: imm12 }
            Str 0xF900_0000 { rt: rd, rn: rn, imm: imm12 }
            LdrReg 0xF860_7800 { rt: rd, rn: rn, rm: rm }
            StrReg 0xF820_7800 { rt: rd, rn: rn, rm: rm }
            B 0x1400_0000 { offset: imm26 }
            Bl 0x9400_0000 { offset: imm26 }
            BCond 0x5400_0000 { cond: low_cond, offset: imm19 }
            Cbz 0xB400_0000 { rt: rd, offset: imm19 }
            Cbnz 0xB500_0000 { rt: rd, offset: imm19 }
            Blr 0xD63F_0000 { rn: rn }
            Ret 0xD65F_0000 { rn: rn }
            Svc 0xD400_0001 { imm: imm16 }
            Brk 0xD420_0000 { imm: imm16 }
            Nop 0xD503_201F {}
        }
    };
}

macro_rules! in_range {
    ($inst:expr; $($form:ident $base:literal { $($field:ident: $place:ident),* })*) => {
        match *$inst {
            $(Inst::$form { $($field),* } => true $(& fits!($place $field))*,)*
        }
    };
}

macro_rules! encoded {
    ($inst:expr; $($form:ident $base:literal { $($field:ident: $place:ident),* })*) => {
        match *$inst {
            $(Inst::$form { $($field),* } => {
                let word = $base;
                $(let word = put!($place word $field);)*
                word
            })*
        }
    };
}

macro_rules! candidates {
    ($places:expr; $($form:ident $base:literal { $($field:ident: $place:ident),* })*) => {
        [$(Inst::$form { $($field: $places.$place),* }),*]
    };
}

macro_rules! fits {
    (imm6 $number:ident) => { $number < 1 << 6 };
    (imm12 $number:ident) => { $number < 1 << 12 };
    (imm16 $number:ident) => { true };
    (hw $number:ident) => { $number < 1 << 2 };
    (cond $number:ident) => { is_condition($number) };
    (low_cond $number:ident) => { is_condition($number) };
    (imm19 $number:ident) => { -(1 << 18) <= $number && $number < 1 << 18 };
    (imm26 $number:ident) => { -(1 << 25) <= $number && $number < 1 << 25 };
    ($register:ident $number:ident) => { $number < 1 << 5 };
}

macro_rules! put {
    (rd $word:ident $number:ident) => { Rd::put($word, $number as u32) };
    (rn $word:ident $number:ident) => { Rn::put($word, $number as u32) };
    (rm $word:ident $number:ident) => { Rm::put($word, $number as u32) };
    (ra $word:ident $number:ident) => { Ra::put($word, $number as u32) };
    (imm6 $word:ident $number:ident) => { Imm6::put($word, $number as u32) };
    (imm12 $word:ident $number:ident) => { Imm12::put($word, $number as u32) };
    (imm16 $word:ident $number:ident) => { Imm16::put($word, $number as u32) };
    (hw $word:ident $number:ident) => { Hw::put($word, $number as u32) };
    (cond $word:ident $number:ident) => { Cond::put($word, $number as u32) };
    (low_cond $word:ident $number:ident) => { LowCond::put($word, $number as u32) };
    (imm19 $word:ident $number:ident) => { Imm19::put($word, twos_complement::<19>($number)) };
    (imm26 $word:ident $number:ident) => { Imm26::put($word, twos_complement::<26>($number)) };
}

impl Inst {
    /// Whether each field fits its width and each condition is one of the ten.
    pub fn in_range(&self) -> bool
        ensures { IsTrue result ↔ IsInRange self.now }
    {
        table!(in_range self)
    }
}

/// The word of an instruction.
pub fn encode(inst: &Inst) -> u32
    requires { IsInRange inst.now }
    ensures { Word inst.now result }
{
    table!(encoded inst)
}

/// The instruction of a word, if it has one.
pub fn decode(word: u32) -> Option<Inst>
    ensures sound { IfSome result (λ i. Word i word) }
    ensures only { (i : Inst) → Word i word → result ≡ Some i }
    ensures function { result ≡ inst_of word }
{
    first_of(word, &candidates(word))
}

/// The first of the candidates that has this word.
fn first_of(word: u32, candidates: &[Inst]) -> Option<Inst>
    ensures { result ≡ find (λ i. is_word i word) candidates.now }
{
    candidates.iter().find(|inst| is_word(inst, word)).copied()
}

/// Each form, with the fields that the word has in its places.
#[tactic(auto, unfolding(crate::specs::Fetch::candidates))]
fn candidates(word: u32) -> [Inst; 33]
    ensures { result ≡ candidates word }
{
    let places = Places::of(word);
    table!(candidates places)
}

#[tactic(auto, using(crate::proofs::FetchLemmas::word_from_test, crate::proofs::FetchLemmas::test_from_word))]
fn is_word(inst: &Inst, word: u32) -> bool
    ensures { result ≡ is_word inst.now word }
{
    inst.in_range() && encode(inst) == word
}
