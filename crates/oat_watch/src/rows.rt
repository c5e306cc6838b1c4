//! Which row of an image's map an address belongs to.
ghost use Rattle.std.specs.Prelude.{◌≡◌, ◌↔◌, IsTrue, Some};
ghost use Rattle.std.specs.List.{list_any};
ghost use Rattle.oat_attest.specs.{is_call, is_over, is_returned_to, row_over, IsLaid};

use oat_device::Image;
use oat_map::Row;

fn is_over(row: &Row, address: u64) -> bool
    ensures { result ≡ is_over address row.now }
{
    row.address() <= address && address - row.address() < 4 * row.word_count()
}

/// The row in whose group an address lies.
pub fn row_over(image: &Image, address: u64) -> Option<Row>
    requires { IsLaid image.now }
    ensures { result ≡ row_over image.now.map.rows address }
{
    let rows = image.map.rows.as_slice();
    let behind = rows.partition_point(|row| row.address() <= address);
    let row = *rows.get(behind.checked_sub(1)?)?;
    if is_over(&row, address) {
        Some(row)
    } else {
        None
    }
}

fn is_call(row: &Row) -> bool
    ensures { result ≡ is_call row.now }
{
    matches!(row, Row::Call { .. } | Row::ICall { .. })
}

/// Whether a call returns to an address: it lies behind the last word of the call's group.
pub fn is_return_site(image: &Image, address: u64) -> bool
    requires { IsLaid image.now }
    ensures { result ≡ list_any (is_returned_to address) image.now.map.rows }
{
    let Some(last) = address.checked_sub(4) else {
        return false;
    };
    match row_over(image, last) {
        Some(row) => is_call(&row) && row.after() == address,
        None => false,
    }
}
