ghost use Rattle.std.specs.Prelude.{◌≡◌, ◌+◌, ◌^◌, ◌<◌, ◌≤◌};
ghost use Rattle.oat_bits.specs.Field.{field, with_field};

/// The `W` bits of a word of 32 bits from bit `LO` upwards.
pub struct Field<const LO: u32, const W: u32>;

impl<const LO: u32, const W: u32> Field<LO, W> {
    /// The field's number.
    pub fn get(word: u32) -> u32
        requires wide { 1 ≤ W }
        requires within { LO + W ≤ 32 }
        ensures { result ≡ field LO W word }
    {
        let low = word >> LO;
        if W == 32 { low } else { low % (1 << W) }
    }

    /// The word with `value` in the field, and its other bits as they are.
    pub fn put(word: u32, value: u32) -> u32
        requires wide { 1 ≤ W }
        requires within { LO + W ≤ 32 }
        requires fits { value < 2 ^ W }
        ensures { result ≡ with_field LO W word value }
    {
        word - (Self::get(word) << LO) + (value << LO)
    }
}
