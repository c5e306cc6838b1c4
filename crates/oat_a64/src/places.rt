//! The places where fields stand in a word, and the numbers that stand there.

ghost use Rattle.std.specs.Prelude.{◌≡◌, ◌^◌, ◌<◌, ◌≤◌};
ghost use Rattle.oat_bits.specs.Field.{field};
ghost use Rattle.oat_a64.specs.Table.{is_condition, FitsSigned, twos_complement};
ghost use Rattle.oat_a64.specs.Fetch.{from_twos_complement, signed_field};

use oat_bits::Field;

pub type Rd = Field<0, 5>;

pub type Rn = Field<5, 5>;

pub type Rm = Field<16, 5>;

pub type Ra = Field<10, 5>;

pub type Imm6 = Field<10, 6>;

pub type Imm12 = Field<10, 12>;

pub type Imm16 = Field<5, 16>;

pub type Hw = Field<21, 2>;

pub type Cond = Field<12, 4>;

pub type LowCond = Field<0, 4>;

pub type Imm19 = Field<5, 19>;

pub type Imm26 = Field<0, 26>;

/// What a word has in each place, under the names of the Arm A64 manual. The
/// condition of B.cond stands lowest, and imm6 is a shift's amount.
#[derive(Clone, Copy)]
pub struct Places {
    pub rd: u8,
    pub rn: u8,
    pub rm: u8,
    pub ra: u8,
    pub imm6: u8,
    pub imm12: u16,
    pub imm16: u16,
    pub hw: u8,
    pub cond: u8,
    pub low_cond: u8,
    pub imm19: i32,
    pub imm26: i32,
}

impl Places {
    pub fn of(word: u32) -> Self
        ensures rd { result.rd ≡ field 0 5 word }
        ensures rn { result.rn ≡ field 5 5 word }
        ensures rm { result.rm ≡ field 16 5 word }
        ensures ra { result.ra ≡ field 10 5 word }
        ensures imm6 { result.imm6 ≡ field 10 6 word }
        ensures imm12 { result.imm12 ≡ field 10 12 word }
        ensures imm16 { result.imm16 ≡ field 5 16 word }
        ensures hw { result.hw ≡ field 21 2 word }
        ensures cond { result.cond ≡ field 12 4 word }
        ensures low_cond { result.low_cond ≡ field 0 4 word }
        ensures imm19 { result.imm19 ≡ signed_field 5 19 word }
        ensures imm26 { result.imm26 ≡ signed_field 0 26 word }
    {
        Places {
            rd: Rd::get(word) as u8,
            rn: Rn::get(word) as u8,
            rm: Rm::get(word) as u8,
            ra: Ra::get(word) as u8,
            imm6: Imm6::get(word) as u8,
            imm12: Imm12::get(word) as u16,
            imm16: Imm16::get(word) as u16,
            hw: Hw::get(word) as u8,
            cond: Cond::get(word) as u8,
            low_cond: LowCond::get(word) as u8,
            imm19: from_twos_complement::<19>(Imm19::get(word)),
            imm26: from_twos_complement::<26>(Imm26::get(word)),
        }
    }
}

pub fn is_condition(number: u8) -> bool
    ensures { result ≡ is_condition number }
{
    matches!(number, 0..=3 | 8..=13)
}

/// The number that stands for an offset in `W` bits.
pub fn twos_complement<const W: u32>(offset: i32) -> u32
    requires wide { 1 ≤ W }
    requires within { W < 32 }
    requires fits { FitsSigned W offset }
    ensures { result ≡ twos_complement W offset }
{
    if offset < 0 {
        (1 << W) - (-offset) as u32
    } else {
        offset as u32
    }
}

/// The offset for which a number stands in `W` bits.
fn from_twos_complement<const W: u32>(number: u32) -> i32
    requires wide { 1 ≤ W }
    requires within { W < 32 }
    requires fits { number < 2 ^ W }
    ensures { result ≡ from_twos_complement W number }
{
    if number < 1 << (W - 1) {
        number as i32
    } else {
        -(((1 << W) - number) as i32)
    }
}
