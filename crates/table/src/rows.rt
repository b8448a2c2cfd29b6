// Rows of a region: row k is the words from k times the width on.
ghost use Rattle.std.specs.Prelude.{◌≡◌, ◌*◌, ◌<◌, ◌≤◌, length};
ghost use Rattle.table.specs.Rows.{row, Written};

// Row k of so many rows. (`rows` is for the contract: it says that row k lies within the region.)
pub fn row_of(region: &[u32], rows: usize, width: usize, k: usize) -> &[u32]
    requires row { k < rows }
    requires room { rows * width ≤ length region.now }
    ensures is { result.now ≡ row width k region.now }
    ensures long { length result.now ≡ width }
{
    let at = k * width;
    &region[at..at + width]
}

// Writes row k of so many rows, and nothing else.
pub fn write_row(region: &mut [u32], rows: usize, width: usize, k: usize, from: &[u32])
    requires row { k < rows }
    requires room { rows * width ≤ length region.old }
    requires long { length from.now ≡ width }
    ensures { Written width k from.now region.old region.new }
{
    let at = k * width;
    region[at..at + width].copy_from_slice(from);
}
