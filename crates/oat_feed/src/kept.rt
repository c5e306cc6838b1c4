use crate::fields::array_at;
use crate::places::RecordPlaces;
use oat_blob::Records;
use std::marker::Model;

/// The records of a blob, kept as its bytes have them.
#[derive(Drop)]
pub struct Kept {
    bytes: Vec<u8>,
    places: RecordPlaces,
}

impl Model for Kept {
    ghost use Rattle.oat_feed.specs.Verdict.{RecordLists};
    ghost use Rattle.oat_feed.specs.RecordPlaces.{HoldsRecords, kept_bits, kept_targets};

    ghost Value = { RecordLists };

    ghost view = { λ kept. record { bits = kept_bits kept.places kept.bytes.items; targets = kept_targets kept.places kept.bytes.items } };

    ghost invariant = { λ kept. HoldsRecords kept.places kept.bytes.items };
}

impl Kept {
    ghost use Rattle.std.specs.Prelude.{◌≡◌};
    ghost use Rattle.oat_feed.specs.RecordPlaces.{HoldsRecords, kept_bits, kept_targets};

    pub(crate) fn at(places: RecordPlaces, bytes: Vec<u8>) -> Kept
        requires { HoldsRecords places bytes.items }
        ensures bits { result.bits ≡ kept_bits places bytes.items }
        ensures targets { result.targets ≡ kept_targets places bytes.items }
    {
        Kept { bytes, places }
    }
}

impl Records for Kept {
    ghost bits = { λ kept. kept.bits };

    ghost targets = { λ kept. kept.targets };

    fn bit_count(&self) -> u32 {
        self.places.bit_count
    }

    fn bit(&self, i: u32) -> bool {
        let (_, behind) = self.bytes.split_at(self.places.bits_at);
        let (bits, _) = behind.split_at((self.places.bit_count as usize).div_ceil(8));
        let byte = bits[(i / 8) as usize];
        byte >> (7 - i % 8) & 1 == 1
    }

    fn target_count(&self) -> u32 {
        self.places.target_count
    }

    fn target(&self, i: u32) -> u64 {
        let field = array_at(&self.bytes, self.places.targets_at + i as usize * 8);
        u64::from_be_bytes(field.unwrap())
    }
}
