//! Floods over rows of cells. A row is a word, whose bit k is its cell of number k; rows are listed
//! layer by layer.

ghost use Rattle.std.specs.Prelude.{◌≡◌, true, false, ◌+◌, ◌<◌, ◌≤◌, ◌^◌, ℕ, length, slice_index_or};
ghost use Rattle.flood.specs.RowFlood.{ways_of, AreAsMany, AreClosedBut, AreClosedRows, IsClosedRow, leads_across, is_pulled, Pulls, FloodsRows};
ghost use Rattle.lemmas.specs.Bits.{is_set};

/// The ways back from the cells of rows: a bit of a word is set where nothing stands between its
/// cell and the one before.
#[derive(Drop)]
pub struct RowWays {
    /// How many rows a layer has.
    pub layer: usize,
    /// The ways to the cell before in the same row.
    pub along: Vec<u64>,
    /// Those to the same cell of the row before, in the same layer.
    pub beside: Vec<u64>,
    /// Those to the same cell of the same row in the layer before.
    pub behind: Vec<u64>,
}

/// The cells of a row to which one step leads from reached cells of the rows that stand so far
/// before it and after it.
fn across(ways: &[u64], stride: usize, reached: &[u64], row: usize) -> u64
    requires count { length ways.now ≡ length reached.now }
    requires few { length reached.now ≤ 2 ^ 32 }
    requires row { row < length reached.now }
    requires stride { stride ≤ 2 ^ 32 }
    ensures { (k : ℕ) → is_set result k ≡ leads_across ways.now stride reached.now row k }
{
    let before = if row >= stride {
        reached[row - stride] & ways[row]
    } else {
        0
    };
    let after = if row + stride < reached.len() {
        reached[row + stride] & ways[row + stride]
    } else {
        0
    };
    before | after
}

/// The cells of a row that are reached, and those to which one step leads from reached ones.
fn pulled(ways: &RowWays, reached: &[u64], row: usize) -> u64
    requires count { AreAsMany (ways_of ways.now) (length reached.now) }
    requires row { row < length reached.now }
    ensures more { slice_index_or reached.now row 0 ≤ result }
    ensures cells { (k : ℕ) → is_set result k ≡ is_pulled (ways_of ways.now) reached.now row k }
{
    let cells = reached[row];
    let along = ways.along.as_slice()[row];
    let forth = cells << 1 & along;
    let back = (cells & along) >> 1;
    let beside = across(ways.beside.as_slice(), 1, reached, row);
    let behind = across(ways.behind.as_slice(), ways.layer, reached, row);
    cells | (forth | (back | (beside | behind)))
}

/// One step more to the cells of a row, and whether it leads to any.
fn pull(ways: &RowWays, row: usize, reached: &mut [u64]) -> bool
    requires count { AreAsMany (ways_of ways.now) (length reached.old) }
    requires row { row < length reached.old }
    ensures { Pulls (ways_of ways.now) row reached.old reached.new result }
{
    let cells = pulled(ways, reached, row);
    if cells == reached[row] {
        return false;
    }
    reached[row] = cells;
    true
}

/// One step leads to further cells of a row.
fn is_open(ways: &RowWays, reached: &[u64], row: usize) -> bool
    requires count { AreAsMany (ways_of ways.now) (length reached.now) }
    requires row { row < length reached.now }
    ensures { result ≡ false → IsClosedRow (ways_of ways.now) reached.now row }
{
    pulled(ways, reached, row) != reached[row]
}

/// One step leads to further cells of the row that stands so far before another one.
fn is_open_before(ways: &RowWays, reached: &[u64], row: usize, stride: usize) -> bool
    requires count { AreAsMany (ways_of ways.now) (length reached.now) }
    requires row { row < length reached.now }
    ensures there { result ≡ true → (0 < stride) × (stride ≤ row) }
    ensures closed { result ≡ false → (r : ℕ) → r < row → r + stride ≡ row
        → IsClosedRow (ways_of ways.now) reached.now r }
{
    if stride == 0 {
        return false;
    }
    if row < stride {
        return false;
    }
    is_open(ways, reached, row - stride)
}

/// The first row to which one step may lead further cells, once a row has grown: one of the two
/// before it to which a step leads from it, or else the row itself.
fn first_open(ways: &RowWays, reached: &[u64], row: usize) -> usize
    requires count { AreAsMany (ways_of ways.now) (length reached.now) }
    requires row { row < length reached.now }
    requires closed { AreClosedBut (ways_of ways.now) reached.now row }
    ensures within { result ≤ row }
    ensures closed { AreClosedRows (ways_of ways.now) reached.now result }
{
    if is_open_before(ways, reached, row, ways.layer) {
        return row - ways.layer;
    }
    if is_open_before(ways, reached, row, 1) {
        return row - 1;
    }
    row
}

/// Floods on from reached cells to all to which chains of steps lead. A row is looked at once, and
/// a few times more for each time that it or one beside it grows.
pub fn flood_rows(ways: &RowWays, reached: &mut [u64])
    requires count { AreAsMany (ways_of ways.now) (length reached.old) }
    ensures { FloodsRows (ways_of ways.now) reached.old reached.new }
{
    let mut row = 0;
    while row < reached.len() {
        if pull(ways, row, reached) {
            row = first_open(ways, reached, row);
        } else {
            row += 1;
        }
    }
}
