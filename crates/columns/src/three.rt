// Three columns: whether two of them have a check in common.
ghost use Rattle.std.specs.Prelude.{◌≡◌, ◌+◌, ◌*◌, ◌≤◌, ◌<◌, length};
ghost use Rattle.parity.specs.Matrix.{lent};
ghost use Rattle.columns.specs.Three.{in_two, two_in, Apart};

// The bits that are ones of at least two of the three words.
fn in_two(x: u64, y: u64, z: u64) -> u64
    ensures { result ≡ in_two x y z }
{
    (x & y) | ((x | y) & z)
}

// The checks of column word `i` that contain two of the bits `x`, `y` and `z`.
fn two_in(cols: &[u64], width: usize, x: usize, y: usize, z: usize, i: usize) -> u64
    requires { (x * width + width ≤ length cols.now) × (y * width + width ≤ length cols.now) × (z * width + width ≤ length cols.now) × (i < width) }
    ensures { result ≡ two_in width cols.now x y z i }
{
    in_two(
        cols[x * width + i],
        cols[y * width + i],
        cols[z * width + i],
    )
}

// Whether no check of the columns contains two of the bits `x`, `y` and `z`.
pub fn apart(cols: &[u64], width: usize, x: usize, y: usize, z: usize) -> bool
    requires { (x * width + width ≤ length cols.now) × (y * width + width ≤ length cols.now) × (z * width + width ≤ length cols.now) }
    ensures { Apart (width * 64) (lent width cols.now) x y z result }
{
    let mut acc: u64 = 0;
    for i in 0..width {
        acc |= two_in(cols, width, x, y, z, i);
    }
    acc == 0
}
