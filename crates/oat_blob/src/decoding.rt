ghost use Rattle.std.specs.Prelude.{◌≡◌, ◌-◌, ◌≤◌, ℕ, List, length, IfOk, IfErr, IsOkAnd};
ghost use Rattle.oat_blob.specs.Body.{Body};
ghost use Rattle.oat_blob.specs.Faults.{IsFormOffset};
ghost use Rattle.oat_blob.specs.Layout.{IsBlob, covered_of};

use crate::body::BodyHead;
use crate::fault::FormFault;
use crate::fields::u64_at;
use crate::reader::{self, Stop};
use crate::records::Records;
use std::marker::Model;

/// A blob that was read, over the bytes that it stands in.
#[derive(Drop)]
pub struct BlobRef<'a> {
    head: BodyHead,
    covered: &'a [u8],
    bit_count: u32,
    bits: &'a [u8],
    target_count: u32,
    targets: &'a [u8],
    mac: [u8; 32],
}

impl<'a> Model for BlobRef<'a> {
    ghost use Rattle.oat_bits.specs.Bits.{bits_in};
    ghost use Rattle.oat_blob.specs.Shown.{Shown, IsShown, targets_in};

    ghost Value = { Shown };

    ghost view = { λ b. record { body = record { head = b.head; bits = bits_in b.bit_count b.bits.now; targets = targets_in b.target_count b.targets.now }; mac = b.mac } };

    ghost invariant = { λ b. IsShown (record { head = b.head; bits = bits_in b.bit_count b.bits.now; targets = targets_in b.target_count b.targets.now }) b.covered.now b.bit_count b.bits.now b.target_count b.targets.now };
}

impl<'a> BlobRef<'a> {
    pub fn head(&self) -> BodyHead
        ensures { result ≡ self.now.body.head }
    {
        self.head
    }

    /// All the bytes before the MAC.
    pub fn covered(&self) -> &[u8]
        ensures { result.now ≡ covered_of self.now.body }
    {
        self.covered
    }

    /// The MAC that the bytes carry, which need not be the right one.
    pub fn mac(&self) -> [u8; 32]
        ensures { result ≡ self.now.mac }
    {
        self.mac
    }
}

impl<'a> Records for BlobRef<'a> {
    ghost bits = { λ blob. blob.body.bits };

    ghost targets = { λ blob. blob.body.targets };

    fn bit_count(&self) -> u32 {
        self.bit_count
    }

    fn bit(&self, i: u32) -> bool {
        let byte = self.bits[(i / 8) as usize];
        byte >> (7 - i % 8) & 1 == 1
    }

    fn target_count(&self) -> u32 {
        self.target_count
    }

    fn target(&self, i: u32) -> u64 {
        u64_at(self.targets, i as usize * 8)
    }
}

fn blob(bytes: &[u8]) -> Result<BlobRef<'_>, Stop>
    ensures found { IfOk result (λ blob. IsBlob bytes.now blob.body blob.mac) }
    ensures within { IfErr result (λ stop. stop.left ≤ length bytes.now) }
    ensures form { IfErr result (λ stop. IsFormOffset bytes.now (length bytes.now - stop.left)) }
{
    let (head, rest) = reader::head(bytes)?;
    let (bits, rest) = reader::bits(rest)?;
    let (targets, rest) = reader::targets(rest)?;
    let (covered, _) = bytes.split_at(bytes.len() - rest.len());
    let (mac, rest) = reader::array(rest)?;
    if !rest.is_empty() {
        return Err(Stop { left: rest.len() });
    }
    Ok(BlobRef {
        head,
        covered,
        bit_count: bits.count,
        bits: bits.bytes,
        target_count: targets.count,
        targets: targets.bytes,
        mac,
    })
}

/// The blob that the bytes are, if they are one.
pub fn decode(bytes: &[u8]) -> Result<BlobRef<'_>, FormFault>
    ensures found { IfOk result (λ blob. IsBlob bytes.now blob.body blob.mac) }
    ensures only { (body : Body) (mac : List ℕ) → IsBlob bytes.now body mac → IsOkAnd result (λ blob. (blob.body ≡ body) × (blob.mac ≡ mac)) }
    ensures form { IfErr result (λ fault. IsFormOffset bytes.now fault.offset) }
{
    match blob(bytes) {
        Ok(blob) => Ok(blob),
        Err(stop) => Err(FormFault {
            offset: bytes.len() - stop.left,
        }),
    }
}
