use oat_image::read_image;
use oat_image::worked::ONE_JUMP;
use oat_list::Listed;
use oat_owner::{Known, Owner, OwnerFault};
use oat_shape::check_shape;
use std::alloc::Global;
use std::test::Fail;

fn device(alloc: Global, id: u32) -> Result<Known, Fail> {
    let text = ONE_JUMP.as_bytes();
    if text.len() > 16_777_216 {
        return Err(Fail::from("too long"));
    }
    let image = read_image(alloc, text).ok().ok_or("no image")?;
    let shaped = check_shape(alloc, image).ok().ok_or("no shape")?;
    let key = Listed::from_vec(vec![in alloc; 0x0b; 20]?);
    Ok(Known { id, key, shaped })
}

#[test]
fn devices_have_ids_of_their_own(rt: HostRuntime) -> Result<(), Fail> {
    let mut known = Vec::new(rt.alloc());
    for id in [3, 4, 3, 4] {
        known.push(device(rt.alloc(), id)?)?;
    }
    let refusal = Owner::new(rt.alloc(), known).err().ok_or("an owner")?;
    assert!(rt; matches!(refusal.fault, OwnerFault::Twice(3)));
    Ok(())
}
